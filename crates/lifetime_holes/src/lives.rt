//! The lifetimes of all temporaries.

ghost use Rattle.std.specs.Prelude.{◌≡◌, [], length, replicate, IfOk};
ghost use Rattle.temp_ir.specs.Insns.{reads_of, writes_of, targets_of, flows_on_of};
ghost use Rattle.bitvector_flow.specs.Lives.{AreLive};
ghost use Rattle.alloc_rules.specs.Scan.{AreLifetimes};

use crate::blocks::mark_blocks;
use alloc_rules::scan::Lifetimes;
use bitvector_flow::Flow;
use bk_containers::Seq;
use pass_core::function::Func;
use std::alloc::{AllocError, Global};
use temp_ir::insn::TempInsn;

/// So many empty lists.
#[tactic(auto, using(crate::proofs::Done::one_more))]
fn empty_lists<T: Drop>(alloc: Global, count: usize) -> Result<Vec<Seq<T>>, AllocError>
    ensures { IfOk result (λ lists. lists.items ≡ replicate count []) }
{
    let mut lists = Vec::new(alloc);
    for _list in 0..count {
        lists.push(Seq::new(alloc))?;
    }
    Ok(lists)
}

/// Where the temporaries of a function are wanted, if these sets have what is live in it. It goes over each
/// instruction, and over each set of a bottom, once. It fails only where memory is short.
pub fn lifetimes(alloc: Global, f: &Func<TempInsn>, live: &Flow) -> Result<Lifetimes, AllocError>
    requires { AreLive reads_of writes_of targets_of flows_on_of f.now.blocks f.now.temps live.now.top live.now.bottom }
    ensures { IfOk result (λ lives. AreLifetimes f.now lives) }
{
    let mut parts = empty_lists(alloc, f.temps as usize)?;
    let mut refs = empty_lists(alloc, f.temps as usize)?;
    mark_blocks(
        alloc,
        parts.as_mut_slice(),
        refs.as_mut_slice(),
        f.blocks.as_slice(),
        live.bottom.as_slice(),
    )?;
    Ok(Lifetimes {
        parts: Seq::from_vec(parts),
        refs: Seq::from_vec(refs),
    })
}
