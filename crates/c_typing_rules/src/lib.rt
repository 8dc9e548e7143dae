//! What an operator makes of its operands, by their types, or the one fault that it has (C99 6.5).
//!
//! A rule is given operands that are without fault, as they are judged before it. It gives the typed tree, with each
//! conversion written, or refuses. Nothing here goes down into an expression.
#![tactic(auto)]

pub mod arithmetic;
pub mod c_typing_declared_types;
pub mod comparisons;
pub mod conversions;
mod refusal;
pub mod trees;
mod typed;
pub mod types;

pub use refusal::{Refusal, refuse};
pub use typed::{LvalueKind, TypedExpression, value};
