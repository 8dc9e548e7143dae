//! The pieces of a text.

use crate::token::TokenKind;

/// What a piece of a text is: a token, or what stands for a blank.
#[derive(Clone, Copy, Debug, PartialEq, Eq)]
pub enum Piece {
    /// A run of white space, a comment or a linemarker.
    Blank,
    Token(TokenKind),
}

/// A piece in front of a text, and how many bytes spell it.
#[derive(Clone, Copy, Debug, PartialEq, Eq)]
pub struct Cut {
    pub piece: Piece,
    pub len: usize,
}
