//! The arithmetic of C's integer types: what their values are, how words of 64 bits hold them, and what
//! each operator does with them (C99 6.3.1 and 6.5).
//!
//! No function takes memory.
#![tactic(auto)]

pub mod arithmetic;
pub mod bitwise;
pub mod comparison;
pub mod conversion;
pub mod integer_type;
pub mod laws;
pub mod outcome;
