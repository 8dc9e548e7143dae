//! The lowest part of the parser: the cursor over tokens, the names of types so far, and what is read from the one by
//! the other without recursion: names, string literals, and specifiers without braces (C99 6.7.2).
//!
//! Each function reads what the function of that name in the grammar's model reads (the crate `c_parser_grammar`),
//! from the tokens at a cursor. After a refusal the cursor stands at the refused token; after want of memory
//! nothing is known of it.
#![tactic(auto)]

pub mod c_parser_types;
mod cursor;
mod parts;
mod scope;
mod specifiers;

pub use cursor::{ParseStop, Tokens};
pub use parts::{core_name, member_name, no_name, texts};
pub use scope::TypedefScope;
pub use specifiers::{named_type, plain, read_words};
