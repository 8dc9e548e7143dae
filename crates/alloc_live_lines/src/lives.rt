//! The text of what is live in the functions of a program, and of where their temporaries are wanted.

ghost use Rattle.std.specs.Prelude.{◌≡◌, ◌++◌, IfOk, OnOk};
ghost use Rattle.alloc_live_lines.specs.Lives.{IsLiveText, AreLiveTexts};
ghost use Rattle.alloc_live_lines.specs.model.Puts.{Puts};

use crate::text::put_live;
use bitvector_flow::liveness;
use cfg::build;
use lifetime_holes::lifetimes;
use pass_core::function::Func;
use std::alloc::{AllocError, Global};
use temp_ir::insn::TempInsn;

/// Puts the text of a function.
fn put_function(alloc: Global, out: &mut Vec<u8>, f: &Func<TempInsn>) -> Result<(), AllocError>
    ensures { OnOk result (Puts (IsLiveText f.now) out.old.items out.new.items) }
{
    let graph = build(alloc, f)?;
    let live = liveness(alloc, f, &graph)?;
    let lives = lifetimes(alloc, f, &live)?;
    put_live(out, f, &live, &lives)
}

/// Puts the texts of functions, one behind the other.
fn put_functions(
    alloc: Global,
    out: &mut Vec<u8>,
    functions: &[Func<TempInsn>],
) -> Result<(), AllocError>
    ensures { OnOk result (Puts (AreLiveTexts functions.now) out.old.items out.new.items) }
{
    for at in 0..functions.len() {
        put_function(alloc, out, &functions[at])?;
    }
    Ok(())
}

/// The text of all functions. It fails only where memory is short.
pub fn lives_text(alloc: Global, functions: &[Func<TempInsn>]) -> Result<Vec<u8>, AllocError>
    ensures { IfOk result (λ text. AreLiveTexts functions.now text.items) }
{
    let mut out = Vec::new(alloc);
    put_functions(alloc, &mut out, functions)?;
    Ok(out)
}
