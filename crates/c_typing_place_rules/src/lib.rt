//! What the operators of places make of their operands, by their types, or the one fault that they have: what pointers
//! lead to, elements and members, addresses, steps and assignments (C99 6.5.2, 6.5.3, 6.5.16).
//!
//! A rule is given operands that are without fault, as they are judged before it. It gives the typed tree, with each
//! conversion written, or refuses. Nothing here goes down into an expression.
#![tactic(auto)]

pub mod assignments;
pub mod members;
pub mod places;
