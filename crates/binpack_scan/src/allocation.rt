//! The allocation of a function.

ghost use Rattle.std.specs.Prelude.{◌≡◌, IsTrue, IfOk};
ghost use Rattle.temp_ir.specs.Fixed.{is_settled};
ghost use Rattle.alloc_model.specs.Places.{plan_of};
ghost use Rattle.alloc_model.specs.Faithful.{Faithful};
ghost use Rattle.alloc_rules.specs.Lean.{IsLean};
ghost use Rattle.alloc_rules.specs.Journal.{IsJournal};

use crate::edges::all_edges;
use crate::scan::{Placed, place_temporaries};
use alloc_journal::journal_of;
use alloc_model::allocation::Allocation;
use binpack_blocks::block::Lists;
use binpack_blocks::blocks::Maps;
use bitvector_flow::liveness;
use lifetime_holes::lifetimes;
use pass_core::function::Func;
use std::alloc::{AllocError, Global};
use temp_ir::copy_fn;
use temp_ir::insn::TempInsn;

/// A faithful allocation of a function by one scan with second chances. The function of the allocation has the same
/// name, numbers, objects, blocks and instructions, and the journal says what was done. It fails only where memory is
/// short.
pub fn binpack(alloc: Global, f: &Func<TempInsn>) -> Result<Allocation, AllocError>
    requires { IsTrue (is_settled f.now.params f.now.blocks) }
    ensures faithful { IfOk result (λ a. Faithful (plan_of a)) }
    ensures lean { IfOk result (λ a. IsLean (plan_of a)) }
    ensures name { IfOk result (λ a. a.func.name ≡ f.now.name) }
    ensures params { IfOk result (λ a. a.func.params ≡ f.now.params) }
    ensures temps { IfOk result (λ a. a.func.temps ≡ f.now.temps) }
    ensures objects { IfOk result (λ a. a.func.objects ≡ f.now.objects) }
    ensures blocks { IfOk result (λ a. a.func.blocks ≡ f.now.blocks) }
    ensures journal { IfOk result (λ a. IsJournal (plan_of a) a.journal) }
{
    let graph = cfg::build(alloc, f)?;
    let live = liveness(alloc, f, &graph)?;
    let lives = lifetimes(alloc, f, &live)?;
    let Placed { maps, lists } = place_temporaries(alloc, f, &lives, &live)?;
    let Maps { top, bottom } = maps;
    let Lists {
        transfers,
        registers,
    } = lists;
    let edges = all_edges(
        alloc,
        f,
        &graph,
        bottom.as_slice(),
        top.as_slice(),
        live.top.as_slice(),
        live.top.as_slice(),
    )?;
    let journal = journal_of(alloc, f, &lives, transfers.as_slice(), registers.as_slice())?;
    let func = copy_fn(alloc, f)?;
    Ok(Allocation {
        func,
        top,
        bottom,
        at: transfers,
        regs: registers,
        edges,
        journal,
    })
}
