//! Makes the code of a typed unit over virtual registers: items in front of the code that follows them, so that each
//! jump finds its block.
//!
//! What each piece of code is stands in `lowering_code`, and each function here makes one of those.
#![tactic(auto)]

pub mod changes;
pub mod code;
pub mod operations;
pub mod operators;
pub mod pieces;
pub mod registers;
pub mod sizes;
