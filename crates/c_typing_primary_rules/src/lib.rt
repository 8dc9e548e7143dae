//! What names, constants and string literals are as expressions, and what calls, commas and `switch` make of their
//! operands, or the one fault that they have (C99 6.5.1, 6.5.2.2, 6.5.17, 6.8.4.2).
//!
//! A rule is given operands that are without fault, as they are judged before it. Nothing here goes down into an
//! expression.
#![tactic(auto)]

pub mod calls;
pub mod commas;
pub mod primary;
pub mod switches;
