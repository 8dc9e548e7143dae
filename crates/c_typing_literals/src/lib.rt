//! What literals of C stand for: the types and values of integer and character constants, and the bytes of string
//! literals, from their spellings (C99 6.4.4.1, 6.4.4.4, 6.4.5).
//!
//! A spelling is the bytes of a token that the lexer has found. Each definition is of all lists of bytes, so nothing
//! is asked of a spelling.
#![tactic(auto)]

mod characters;
mod digits;
mod integers;
pub mod laws;
mod texts;

pub use characters::character;
pub use integers::{IntegerLiteral, integer};
pub use texts::put_text;
