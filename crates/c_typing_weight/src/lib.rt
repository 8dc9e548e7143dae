//! The weight of a unit, and the data that it needs. No call takes memory, and sums stand still at the greatest number
//! of 64 bits.
//!
//! The definitions are those of `c_typed_tree`: `specs/Weight.antt` and `specs/Rooms.antt`.
#![tactic(auto)]

mod expressions;
mod locals;
mod statements;
#[cfg(test)]
mod tests;
mod units;

pub use expressions::expr_weight;
pub use locals::locals_bytes;
pub use statements::stmt_weight;
pub use units::{data_size, function_weight, weight};

/// The weight that a unit may have.
pub const MOST_WEIGHT: u64 = 131_072;
