//! How many statements, expressions and locals a typed unit has. No call takes memory, and sums stand still at the
//! greatest number of 64 bits.
//!
//! The definitions are those of `c_typed_tree`: `specs/Counts.antt`.

mod expressions;
mod statements;
mod units;

pub use expressions::expr_nodes;
pub use statements::stmt_nodes;
pub use units::unit_nodes;
