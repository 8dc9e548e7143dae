//! The lexer: it walks over a text and hands out its tokens one by one.

use crate::front::cut_at;
use crate::piece::{Cut, Piece};
use crate::token::{LexFault, Token, TokenKind};
use std::marker::Model;

/// The greatest number of bytes that a text may have.
pub const TEXT_LIMIT: usize = 4_194_304;

/// Cuts a text into tokens by longest match (C99 6.4p4). It takes no memory.
#[derive(Drop)]
pub struct Lexer<'a> {
    text: &'a [u8],
    at: usize,
}

impl<'a> Model for Lexer<'a> {
    ghost use Rattle.std.specs.Prelude.{◌≤◌, ◌^◌, length};
    ghost use Rattle.c_lexer.specs.Limits.{text_limit};
    ghost use Rattle.c_lexer.specs.Steps.{TextPlace, coded_place};

    ghost Value = { TextPlace };

    ghost coded = { coded_place };

    ghost view = { λ l. record { text = l.text.now; at = l.at } };

    ghost invariant = { λ l. (l.at ≤ length l.text.now) × (length l.text.now ≤ text_limit) };
}

impl<'a> Lexer<'a> {
    ghost use Rattle.std.specs.Prelude.{◌≡◌, ◌≤◌, IfOk, IfErr, length};
    ghost use Rattle.c_lexer.specs.Limits.{text_limit};
    ghost use Rattle.c_lexer.specs.Pieces.{IsStuck};
    ghost use Rattle.c_lexer.specs.Steps.{LexerGives, Refuses};

    /// A lexer at the beginning of a text of at most [`TEXT_LIMIT`](crate::TEXT_LIMIT) bytes.
    pub fn new(text: &'a [u8]) -> Lexer<'a>
        requires { length text.now ≤ text_limit }
        ensures { result ≡ record { text = text.now; at = 0 } }
    {
        Lexer { text, at: 0 }
    }

    fn advance(&mut self) -> Result<Token, LexFault>
        ensures token { IfOk result (λ t. LexerGives self.old t self.new) }
        ensures fault { IfErr result (λ f. Refuses self.old f self.new) }
    {
        loop {
            let (before, rest) = self.text.split_at(self.at);
            let at = self.at as u32;
            if rest.is_empty() {
                return Ok(Token {
                    kind: TokenKind::End,
                    at,
                    len: 0,
                });
            }
            match cut_at(before, rest) {
                None => return Err(LexFault { at }),
                Some(
                    Cut {
                        piece: Piece::Blank,
                        len,
                    },
                ) => self.at += len,
                Some(
                    Cut {
                        piece: Piece::Token(kind),
                        len,
                    },
                ) => {
                    self.at += len;
                    return Ok(Token {
                        kind,
                        at,
                        len: len as u32,
                    });
                }
            }
        }
    }

    /// The next token past blanks, comments and linemarkers, and `End` behind the last one, also when
    /// it is asked again.
    ///
    /// # Errors
    ///
    /// [`LexFault`] with the offset of the first byte past them, where no token begins there. It is
    /// answered again by each later call.
    pub fn next(&mut self) -> Result<Token, LexFault>
        ensures token { IfOk result (λ t. LexerGives self.old t self.new) }
        ensures fault { IfErr result (λ f. Refuses self.old f self.new) }
        ensures fault_again { IsStuck self.old.text self.old.at → result ≡ Err (record { at = self.old.at }) }
        ensures end_again { self.old.at ≡ length self.old.text
            → result ≡ Ok (record { kind = TokenKind.End; at = self.old.at; len = 0 }) }
    {
        self.advance()
    }
}
