//! Functions over any instructions from their parts, where the parts are lawful: for programs that tests write down.
#![tactic(auto)]

mod blocks;
pub mod function;
mod insns;

pub use function::{Parts, function_of};
