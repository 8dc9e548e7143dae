//! The code of functions over virtual registers, as blocks, and that such code is good.
#![tactic(auto)]

pub mod laws;
pub mod lower;
pub mod memory;

pub use lower::lower_function;
