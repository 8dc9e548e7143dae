//! The parser of C units: from the text to its syntax tree.
//!
//! What a text's tree is, the grammar says (the crate `c_parser_grammar`). [`parse`] reads a whole text, one external
//! declaration (C99 6.9) after another, and [`nest`] gives the nesting of its tokens (the crate `c_parser_nesting`).
//! Statements are read by the crate `c_parser_statements`, specifiers by `c_parser_specifiers`, and expressions by
//! `c_parser_expressions`, from the tokens at a cursor (the crate `c_parser_cursor`).
#![tactic(auto)]

mod fault;
pub mod laws;
mod nesting;
mod parsing;
mod units;

pub use fault::ParseFault;
pub use nesting::nest;
pub use parsing::parse;
