//! The part of the parser for expressions, and the type names and declarators that stand in them (C99 6.5, 6.7.5
//! and 6.7.6).
//!
//! Each function reads what the function of that name in the grammar's model reads (the crate `c_parser_grammar`),
//! from the tokens at a cursor (the crate `c_parser_cursor`). After a refusal the cursor stands at the refused token;
//! after want of memory nothing is known of it.
#![tactic(auto)]

mod expressions;

pub use expressions::{declarator, expr, whole};
