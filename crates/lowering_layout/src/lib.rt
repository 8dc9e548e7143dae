//! The blocks of the code of a function.
//!
//! What the blocks of code are stands in `lowering_code`; here they are laid out in one pass over the items, and are
//! shown to be those of a function.
#![tactic(auto)]

pub mod finish;
pub mod heads;
pub mod layout;
mod steps;
pub mod tops;

pub use finish::function;
