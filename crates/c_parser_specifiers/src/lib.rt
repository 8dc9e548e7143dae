//! The part of the parser for specifiers, with the braces of structs and enums in them, and for the declarations that
//! stand in those and in blocks (C99 6.7.2 and 6.7.5).
//!
//! Each function reads what the function of that name in the grammar's model reads (the crate `c_parser_grammar`),
//! from the tokens at a cursor (the crate `c_parser_cursor`). After a refusal the cursor stands at the refused token;
//! after want of memory nothing is known of it.
#![tactic(auto)]

mod braces;

pub use braces::{append, declaration, specifier};
