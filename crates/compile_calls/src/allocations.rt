//! The text of the allocations of a program.

ghost use Rattle.std.specs.Prelude.{◌≡◌, ◌<◌, ◌^◌, ◌++◌, IfOk, OnOk, length};
ghost use Rattle.alloc_lines.specs.Text.{journal_lines};
ghost use Rattle.compile_calls.specs.Texts as text;

use alloc_lines::{journal_text, put_allocation};
use alloc_model::allocation::Allocation;
use std::alloc::{AllocError, Global};

/// Puts the allocations of a program.
#[tactic(auto, using(crate::proofs::Loops::allocations_next, crate::proofs::Loops::allocations_end))]
fn put_allocations(out: &mut Vec<u8>, allocations: &[Allocation]) -> Result<(), AllocError>
    requires { length allocations.now < 2 ^ 32 }
    ensures { OnOk result (out.new.items ≡ out.old.items ++ text.allocations_text 0 allocations.now) }
{
    let mut number = 0;
    for at in 0..allocations.len() {
        number = put_allocation(out, number, &allocations[at])?;
    }
    Ok(())
}

/// The text of the allocations of a program, whose instructions have the numbers that they have in the program. It
/// fails only where memory is short.
pub(crate) fn allocations_text(
    alloc: Global,
    allocations: &[Allocation],
) -> Result<Vec<u8>, AllocError>
    requires { length allocations.now < 2 ^ 32 }
    ensures { IfOk result (λ bytes. bytes.items ≡ text.allocations_text 0 allocations.now) }
{
    let mut out = Vec::new(alloc);
    put_allocations(&mut out, allocations)?;
    Ok(out)
}

/// Puts the journal of a function.
fn put_journal(alloc: Global, out: &mut Vec<u8>, a: &Allocation) -> Result<(), AllocError>
    ensures { OnOk result (out.new.items ≡ out.old.items ++ journal_lines a.now) }
{
    let text = journal_text(alloc, a)?;
    out.extend_from_slice(text.as_slice())?;
    Ok(())
}

/// Puts the journals of functions.
fn put_journals(
    alloc: Global,
    out: &mut Vec<u8>,
    allocations: &[Allocation],
) -> Result<(), AllocError>
    ensures { OnOk result (out.new.items ≡ out.old.items ++ text.journals_text allocations.now) }
{
    for a in allocations {
        put_journal(alloc, out, a)?;
    }
    Ok(())
}

/// The text of the journals of a program, function by function. It fails only where memory is short.
pub(crate) fn journals_text(
    alloc: Global,
    allocations: &[Allocation],
) -> Result<Vec<u8>, AllocError>
    ensures { IfOk result (λ bytes. bytes.items ≡ text.journals_text allocations.now) }
{
    let mut out = Vec::new(alloc);
    put_journals(alloc, &mut out, allocations)?;
    Ok(out)
}
