//! What instructions over virtual registers do with values and with memory.
//!
//! Each function answers what a definition of `suifvm_meaning` says of the operator or of the access. A memory keeps along
//! a run what `specs/Tidy.antt` says.
#![tactic(auto)]

pub mod given;
pub mod numbers;
pub mod objects;
pub mod operators;
mod pointers;
pub mod start;
