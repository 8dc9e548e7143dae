//! The punctuators (C99 6.4.6), by their one, two or three bytes.

ghost use Rattle.std.specs.Prelude.{◌≡◌};
ghost use Rattle.c_lexer.specs.model.Front as model;
ghost use Rattle.c_lexer.specs.Marks as spec;

use crate::piece::{Cut, Piece};
use crate::token::{Punct, TokenKind};

#[tactic(auto, unfolding(crate::specs::Marks::mark1))]
fn mark1(a: u8) -> Option<Punct>
    ensures { result ≡ spec.mark1 a }
{
    match a {
        b'[' => Some(Punct::LeftBracket),
        b']' => Some(Punct::RightBracket),
        b'(' => Some(Punct::LeftParen),
        b')' => Some(Punct::RightParen),
        b'{' => Some(Punct::LeftBrace),
        b'}' => Some(Punct::RightBrace),
        b'.' => Some(Punct::Dot),
        b'&' => Some(Punct::Ampersand),
        b'*' => Some(Punct::Star),
        b'+' => Some(Punct::Plus),
        b'-' => Some(Punct::Minus),
        b'~' => Some(Punct::Tilde),
        b'!' => Some(Punct::Exclamation),
        b'/' => Some(Punct::Slash),
        b'%' => Some(Punct::Percent),
        b'<' => Some(Punct::LessThan),
        b'>' => Some(Punct::GreaterThan),
        b'^' => Some(Punct::Caret),
        b'|' => Some(Punct::Bar),
        b'?' => Some(Punct::Question),
        b':' => Some(Punct::Colon),
        b';' => Some(Punct::Semicolon),
        b'=' => Some(Punct::Assign),
        b',' => Some(Punct::Comma),
        _ => None,
    }
}

#[tactic(auto, unfolding(crate::specs::Marks::mark2))]
fn mark2(a: u8, b: u8) -> Option<Punct>
    ensures { result ≡ spec.mark2 a b }
{
    match (a, b) {
        (b'-', b'>') => Some(Punct::Arrow),
        (b'+', b'+') => Some(Punct::Increment),
        (b'-', b'-') => Some(Punct::Decrement),
        (b'<', b'<') => Some(Punct::ShiftLeft),
        (b'>', b'>') => Some(Punct::ShiftRight),
        (b'<', b'=') => Some(Punct::LessOrEqual),
        (b'>', b'=') => Some(Punct::GreaterOrEqual),
        (b'=', b'=') => Some(Punct::EqualEqual),
        (b'!', b'=') => Some(Punct::NotEqual),
        (b'&', b'&') => Some(Punct::AndAnd),
        (b'|', b'|') => Some(Punct::OrOr),
        (b'*', b'=') => Some(Punct::StarAssign),
        (b'/', b'=') => Some(Punct::SlashAssign),
        (b'%', b'=') => Some(Punct::PercentAssign),
        (b'+', b'=') => Some(Punct::PlusAssign),
        (b'-', b'=') => Some(Punct::MinusAssign),
        (b'&', b'=') => Some(Punct::AmpersandAssign),
        (b'^', b'=') => Some(Punct::CaretAssign),
        (b'|', b'=') => Some(Punct::BarAssign),
        _ => None,
    }
}

#[tactic(auto, unfolding(crate::specs::Marks::mark3))]
fn mark3(a: u8, b: u8, c: u8) -> Option<Punct>
    ensures { result ≡ spec.mark3 a b c }
{
    match (a, b, c) {
        (b'.', b'.', b'.') => Some(Punct::Ellipsis),
        (b'<', b'<', b'=') => Some(Punct::ShiftLeftAssign),
        (b'>', b'>', b'=') => Some(Punct::ShiftRightAssign),
        _ => None,
    }
}

fn mark_cut(mark: Punct, len: usize) -> Option<Cut>
    ensures { result ≡ model.mark_cut mark len }
{
    Some(Cut {
        piece: Piece::Token(TokenKind::Mark(mark)),
        len,
    })
}

fn one_byte_mark(a: u8) -> Option<Cut>
    ensures { result ≡ model.one_byte_mark a }
{
    match mark1(a) {
        None => None,
        Some(mark) => mark_cut(mark, 1),
    }
}

fn two_byte_mark(a: u8, b: u8) -> Option<Cut>
    ensures { result ≡ model.two_byte_mark a b }
{
    match mark2(a, b) {
        None => one_byte_mark(a),
        Some(mark) => mark_cut(mark, 2),
    }
}

fn three_byte_mark(a: u8, b: u8, c: u8) -> Option<Cut>
    ensures { result ≡ model.three_byte_mark a b c }
{
    match mark3(a, b, c) {
        None => two_byte_mark(a, b),
        Some(mark) => mark_cut(mark, 3),
    }
}

/// The longest mark in front of a text.
#[tactic(auto, unfolding(crate::specs::model::Front::mark_at))]
pub fn mark_at(s: &[u8]) -> Option<Cut>
    ensures { result ≡ model.mark_at s.now }
{
    match s {
        [] => None,
        [a] => one_byte_mark(*a),
        [a, b] => two_byte_mark(*a, *b),
        [a, b, c, ..] => three_byte_mark(*a, *b, *c),
    }
}
