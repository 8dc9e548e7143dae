//! Each form of expression by its operands: which rule it has, which operands are taken as values, and which may be
//! null pointer constants (C99 6.5).
//!
//! A rule is given operands that are without fault, as they are judged before it. An array stands for a pointer to its
//! first element here, but not under `&`, `++`, `--` and `sizeof`, left of an assignment, and before `.` (6.3.2.1).

mod assignments;
mod binary_operators;
mod casts;
mod null;
mod unary_operators;

pub use assignments::assign;
pub use binary_operators::{binary, conditional, subscript};
pub use casts::{cast_to, size_of_type};
pub use null::take_value;
pub use unary_operators::unary;
