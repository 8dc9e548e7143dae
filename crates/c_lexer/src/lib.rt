//! The tokens of a C text, by longest match (C99 6.4).
//!
//! [`Lexer`] hands out the tokens of a text one by one. What the tokens of a text are, and which place
//! is its first fault, is defined over the whole text in `specs/Pieces.antt`; the laws of that
//! definition are in [`laws`].
#![tactic(auto)]

mod blanks;
mod bytes;
mod front;
pub mod laws;
mod lexer;
mod literals;
mod marks;
mod numbers;
mod piece;
mod token;
mod words;

pub use lexer::{Lexer, TEXT_LIMIT};
pub use literals::{Item, item_at};
pub use token::{Keyword, LexFault, Punct, Token, TokenKind};
