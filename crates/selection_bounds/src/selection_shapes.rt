//! That the blocks of a selected function are shaped as those of the function.

pub mod laws;
