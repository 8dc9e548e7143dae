//! The code of a typed unit over virtual registers, as a definition.
//!
//! `specs/` says what the code of each expression, statement and function is: items in front of the code that follows
//! them, and the blocks that they become.
#![tactic(auto)]

pub mod examples;
pub mod item;
pub mod operation;

pub use item::CodeItem;
pub use operation::RegisterOperation;
