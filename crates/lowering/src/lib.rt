//! The code of units: from a typed unit to a program over virtual registers.
#![tactic(auto)]

mod in_turn;
#[cfg(test)]
mod tests;
mod units;

pub use in_turn::lower_in_turn;
pub use units::lower;
