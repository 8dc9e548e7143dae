//! What the passes of an allocator that scans a function hand on. Instruction n in linear order reads at point 2n and
//! writes at point 2n + 1.

ghost use Rattle.std.specs.Prelude.{◌≡◌, ◌+◌, ◌<◌, ◌^◌, false, length, replicate, IfOk};

use alloc_model::allocation::{Event, TempPlace, Transfer};
use bk_bits::BitSet;
use bk_containers::Seq;
use pass_core::function::Func;
use std::alloc::{AllocError, Global};
use temp_ir::insn::TempInsn;

/// A part of a lifetime, from its first to its last point.
#[derive(Clone, Copy, Debug, PartialEq, Eq)]
pub struct LifetimePart {
    pub first: u32,
    pub last: u32,
}

/// Where the temporaries of a function are wanted. `AreLifetimes` says which lists they are.
#[derive(Drop)]
pub struct Lifetimes {
    /// For each temporary, its parts in order.
    pub parts: Seq<Seq<LifetimePart>>,
    /// For each temporary, the points at which it is read or written, in order.
    pub refs: Seq<Seq<u32>>,
}

/// For each block, the temporaries whose slots have to hold their values at its top. `AreNeeds` says which these are.
#[derive(Drop)]
pub struct Needs {
    pub need: Seq<BitSet>,
}

/// An allocation without the transfers of its edges, and what these have to make good. `AreScanned` says of its sets
/// what they hold.
#[derive(Drop)]
pub struct Scanned {
    pub func: Func<TempInsn>,
    /// For each block, the places at its top of temporaries that are live there. One that is not named has its slot.
    pub top: Seq<Seq<TempPlace>>,
    /// For each block, the places at its end.
    pub bottom: Seq<Seq<TempPlace>>,
    /// For each instruction, what is done before it.
    pub at: Seq<Seq<Transfer>>,
    /// For each instruction, the registers of the temporaries that it reads, in order, then of those that it writes.
    pub regs: Seq<Seq<u8>>,
    pub journal: Seq<Event>,
    /// For each block, the temporaries on whose slots it relies at its top.
    pub relied: Seq<BitSet>,
    /// For each block, the temporaries that it stores.
    pub stored: Seq<BitSet>,
    /// For each block, the temporaries that it writes.
    pub written: Seq<BitSet>,
}

/// Empty sets of numbers below a bound.
#[tactic(auto, using(crate::proofs::Sets::one_more))]
fn empty_sets(alloc: Global, count: usize, bound: u32) -> Result<Seq<BitSet>, AllocError>
    ensures { IfOk result (λ sets. sets ≡ replicate count (replicate bound false)) }
{
    let mut sets = Seq::new(alloc);
    for _set in 0..count {
        sets.push(BitSet::new(alloc, bound)?)?;
    }
    Ok(sets)
}

/// That no block of a function needs a slot: an empty set for each block. It fails only where memory is short.
pub fn no_needs(alloc: Global, f: &Func<TempInsn>) -> Result<Needs, AllocError>
    ensures { IfOk result (λ needs. needs.need ≡ replicate (length f.now.blocks) (replicate f.now.temps false)) }
{
    Ok(Needs {
        need: empty_sets(alloc, f.blocks.len(), f.temps)?,
    })
}
