//! The part of the parser for statements, and the declarations of locals that stand among them (C99 6.7 and 6.8).
//!
//! Each function reads what the function of that name in the grammar's model reads (the crate `c_parser_grammar`),
//! from the tokens at a cursor (the crate `c_parser_cursor`). After a refusal the cursor stands at the refused token;
//! after want of memory nothing is known of it.
#![tactic(auto)]

mod statements;

pub use statements::{items, stmt};
