//! Cleaning of code over virtual registers: instructions read a register in place of a copy of it, those whose writes
//! nothing reads are left out, and jumps to blocks whose only instruction is a jump go on past them.
//!
//! `specs/Copies.antt` says of which register another one is a copy, `specs/Dead.antt` which instructions may be left out
//! because nothing reads what they write, and `specs/Chains.antt` what becomes of targets. `without_copies` does the first
//! over a program, and `clean` the other two, one after the other; `specs/Programs.antt` says what they give. By a law
//! each runs stay (`laws`).
#![tactic(auto)]

mod chains;
mod copies;
mod dead;
mod ends;
pub mod laws;
mod lists;
mod origins;
mod passes;
mod programs;
mod wanted;

pub use chains::jump_chains;
pub use copies::local_copies;
pub use dead::dead_writes;
pub use programs::{clean, clean_in_turn, without_copies};
