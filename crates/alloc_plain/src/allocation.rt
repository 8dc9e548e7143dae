//! The allocation of a function.

ghost use Rattle.std.specs.Prelude.{◌≡◌, IsTrue, IfOk};
ghost use Rattle.temp_ir.specs.Fixed.{is_settled};
ghost use Rattle.alloc_model.specs.Places.{plan_of};
ghost use Rattle.alloc_plain.specs.Plain.{IsAllocationInSlotsOf};

use crate::journal::journal_of;
use alloc_model::allocation::{Allocation, Event};
use alloc_plain_lists::spill_everywhere;
use bk_containers::Seq;
use pass_core::function::Func;
use std::alloc::{AllocError, Global};
use temp_ir::insn::TempInsn;

/// An allocation with a journal in place of its own.
fn with_journal(a: Allocation, journal: Seq<Event>) -> Allocation
    ensures plan { plan_of result ≡ plan_of a }
    ensures func { result.func ≡ a.func }
    ensures top { result.top ≡ a.top }
    ensures journal { result.journal ≡ journal }
{
    let Allocation {
        func,
        top,
        bottom,
        at,
        regs,
        edges,
        journal: _old,
    } = a;
    Allocation {
        func,
        top,
        bottom,
        at,
        regs,
        edges,
        journal,
    }
}

/// A faithful allocation of a function in which every temporary lives in its slot: it is loaded before each
/// instruction that reads it, and stored behind each that writes it. The function of the allocation has the same name,
/// numbers, objects, blocks and instructions, no map names a temporary, and the journal says what was done. It fails
/// only where memory is short.
pub fn plain(alloc: Global, f: &Func<TempInsn>) -> Result<Allocation, AllocError>
    requires { IsTrue (is_settled f.now.params f.now.blocks) }
    ensures { IfOk result (λ a. IsAllocationInSlotsOf f.now a) }
{
    let graph = cfg::build(alloc, f)?;
    let lists = spill_everywhere(alloc, f, &graph)?;
    let journal = journal_of(alloc, f, &graph)?;
    Ok(with_journal(lists, journal))
}
