//! The edges between the blocks of a function: jumps, ends of blocks and labels, with the transfers of each edge.

pub mod laws;
