//! Edges that get blocks of their own.
//!
//! An edge from a block with two successors to one with two predecessors has no place of its own for what is done along
//! it alone. `split_edges` makes one: a block that is a jump alone.
#![tactic(auto)]

mod marks;
mod pieces;
pub mod split;

pub use split::split_edges;
