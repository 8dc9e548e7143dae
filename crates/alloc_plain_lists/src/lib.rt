//! The lists of the plainest allocation: every temporary lives in its slot.
//!
//! Before each instruction the temporaries that it reads are loaded, and behind it what it wrote is stored: before the
//! next instruction, or on each edge from its block. That this is faithful is proved of the lists
//! (`specs/Plain.antt`, `proofs/Faithfulness.antt`), and the code makes these lists.
#![tactic(auto)]

mod allocation;
mod blocks;
mod edges;
mod insns;
pub mod laws;

pub use allocation::spill_everywhere;
pub use insns::{read_count, transfers};
