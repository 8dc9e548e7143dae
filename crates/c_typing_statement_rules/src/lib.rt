//! What statements are, by their parts, and every fault that they have besides those of their parts (C99 6.8): jumps,
//! labels, `return` and conditions.
//!
//! Nothing here goes down into a tree: each function is given what its parts were judged to be.
#![tactic(auto)]

pub mod forms;
pub mod jumps;
pub mod labels;
pub mod values;

pub use jumps::Jumps;
pub use labels::Labels;
