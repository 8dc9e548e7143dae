//! The plainest allocation: every temporary lives in its slot.
//!
//! The lists are those of `alloc_plain_lists`. The journal is put down on a walk over the blocks that keeps which temporaries
//! have their places in registers (`specs/model/Held.antt`); that it is the journal of the allocation is proved of its
//! definition (`proofs/Journals.antt`).
#![tactic(auto)]

mod allocation;
mod allocator;
mod holders;
mod journal;
mod visits;

pub use allocation::plain;
pub use allocator::PlainAllocator;
