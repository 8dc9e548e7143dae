//! Calls of a compiler over an outside in memory, for the programs that check or show whole calls.
//!
//! The compiler is a parameter, so that these programs are proved once, below it.
#![tactic(auto)]

pub mod call;
pub mod compiler;
pub mod endings;
pub mod part;
pub mod twice;

pub use compiler::{Compiler, Ending, Outside, outcome_of, output_of, words_of};
