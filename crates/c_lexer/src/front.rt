//! What stands in front of a text, by its first bytes.

ghost use Rattle.std.specs.Prelude.{◌≡◌, ◌<◌, ◌≤◌, ◌^◌, ℕ, IfNone, IfSome, length};
ghost use Rattle.c_lexer.specs.Blanks.{is_line_start as is_first};
ghost use Rattle.c_lexer.specs.Bytes.{is_digit as is_digit_byte};
ghost use Rattle.c_lexer.specs.model.Front as model;
ghost use Rattle.c_lexer.specs.Pieces.{Begins, first_passes};
ghost use Rattle.c_lexer.specs.declared.piece.Piece.{Piece};

use crate::blanks::{close_at, is_line_start, is_linemarker};
use crate::bytes::{blank_len, is_blank, is_digit, is_letter, line_len, run_len, word_len};
use crate::literals::{char_end, text_end};
use crate::marks::mark_at;
use crate::numbers::is_number;
use crate::piece::{Cut, Piece};
use crate::token::TokenKind;
use crate::words::word_kind;

#[tactic(auto, unfolding(crate::specs::model::Front::word_at))]
fn word_at(s: &[u8]) -> Option<Cut>
    ensures { result ≡ model.word_at s.now }
{
    let len = word_len(s);
    Some(Cut {
        piece: Piece::Token(word_kind(&s[..len])),
        len,
    })
}

#[tactic(auto, unfolding(crate::specs::model::Front::number_at))]
fn number_at(s: &[u8]) -> Option<Cut>
    ensures { result ≡ model.number_at s.now }
{
    let len = run_len(s);
    if is_number(&s[..len]) {
        Some(Cut {
            piece: Piece::Token(TokenKind::Number),
            len,
        })
    } else {
        None
    }
}

#[tactic(auto, unfolding(crate::specs::model::Front::slash_at))]
fn slash_at(s: &[u8]) -> Option<Cut>
    requires { length s.now < 2 ^ 62 }
    ensures { result ≡ model.slash_at s.now }
{
    match s {
        [] => None,
        [_] => mark_at(s),
        [_, b, rest @ ..] => {
            if *b == b'*' {
                match close_at(rest) {
                    None => None,
                    Some(n) => Some(Cut {
                        piece: Piece::Blank,
                        len: n + 2,
                    }),
                }
            } else if *b == b'/' {
                Some(Cut {
                    piece: Piece::Blank,
                    len: line_len(rest) + 2,
                })
            } else {
                mark_at(s)
            }
        }
    }
}

fn begins_with_digit(s: &[u8]) -> bool
    ensures { result ≡ first_passes is_digit_byte s.now }
{
    match s {
        [] => false,
        [b, ..] => is_digit(*b),
    }
}

#[tactic(auto, unfolding(crate::specs::model::Front::dot_at))]
fn dot_at(s: &[u8]) -> Option<Cut>
    ensures { result ≡ model.dot_at s.now }
{
    match s {
        [] => None,
        [_, rest @ ..] => {
            if begins_with_digit(rest) {
                None
            } else {
                mark_at(s)
            }
        }
    }
}

#[tactic(auto, unfolding(crate::specs::model::Front::marker_at))]
fn marker_at(before: &[u8], s: &[u8]) -> Option<Cut>
    requires { length s.now < 2 ^ 62 }
    ensures { result ≡ model.marker_at (is_first before.now) s.now }
{
    let n = line_len(s);
    if is_line_start(before) && is_linemarker(&s[..n]) {
        Some(Cut {
            piece: Piece::Blank,
            len: n + 1,
        })
    } else {
        None
    }
}

fn cut_to_end(piece: Piece, end: Option<usize>) -> Option<Cut>
    requires { IfSome end (λ n. n < 2 ^ 62) }
    ensures { result ≡ model.cut_to_end 1 piece end }
{
    match end {
        None => None,
        Some(n) => Some(Cut { piece, len: n + 1 }),
    }
}

#[tactic(auto, unfolding(crate::specs::model::Front::other_at))]
fn other_at(before: &[u8], s: &[u8]) -> Option<Cut>
    requires { length s.now < 2 ^ 62 }
    ensures { result ≡ model.other_at (is_first before.now) s.now }
{
    match s {
        [] => None,
        [b'\'', rest @ ..] => cut_to_end(Piece::Token(TokenKind::Char), char_end(rest)),
        [b'"', rest @ ..] => cut_to_end(Piece::Token(TokenKind::Text), text_end(rest)),
        [b'#', rest @ ..] => marker_at(before, rest),
        [b'/', ..] => slash_at(s),
        [b'.', ..] => dot_at(s),
        _ => mark_at(s),
    }
}

#[tactic(auto, unfolding(crate::specs::model::Front::front))]
fn front(before: &[u8], s: &[u8]) -> Option<Cut>
    requires { length s.now < 2 ^ 62 }
    ensures { result ≡ model.front (is_first before.now) s.now }
{
    match s {
        [] => None,
        [b, ..] => {
            if is_blank(*b) {
                Some(Cut {
                    piece: Piece::Blank,
                    len: blank_len(s),
                })
            } else if is_letter(*b) {
                word_at(s)
            } else if is_digit(*b) {
                number_at(s)
            } else {
                other_at(before, s)
            }
        }
    }
}

/// The longest piece in front of `s`, which stands behind `before` in its text.
pub fn cut_at(before: &[u8], s: &[u8]) -> Option<Cut>
    requires { length s.now < 2 ^ 62 }
    ensures found { IfSome result (λ c. Begins (is_first before.now) s.now c.len c.piece) }
    ensures some { IfSome result (λ c. 0 < c.len) }
    ensures within { IfSome result (λ c. c.len ≤ length s.now) }
    ensures none { IfNone result ((n : ℕ) (x : Piece) → Begins (is_first before.now) s.now n x → ⊥) }
{
    front(before, s)
}
