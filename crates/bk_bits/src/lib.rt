//! Sets of numbers below a bound, with a bit for each.
//!
//! Contracts see a set as the list that says of each number whether it is a member.
#![tactic(auto)]

mod set;
#[cfg(test)]
mod tests;
mod words;

pub use set::BitSet;
