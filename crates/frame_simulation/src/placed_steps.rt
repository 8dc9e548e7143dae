//! The points of blocks: the transfers and the instruction of each, with the stack of the run.

pub mod laws;
