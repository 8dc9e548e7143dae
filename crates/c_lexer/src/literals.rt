//! Character constants and string literals (C99 6.4.4.4, 6.4.5).

ghost use Rattle.std.specs.Prelude.{◌≡◌, ◌≤◌, ◌<◌, ◌+◌, ◌^◌, All, IsTrue, if◌then◌else◌, nat_le, Some, None, IfSome, length};
ghost use Rattle.c_lexer.specs.Bytes as bytes;
ghost use Rattle.c_lexer.specs.Literals as spec;

use crate::bytes::{hex_len, is_digit, is_octal, octal_len};

/// The greatest value of a byte (C99 5.2.4.2.1).
const MOST_BYTE: u16 = 255;

/// One item of a literal: the byte that it stands for, and how many bytes spell it.
#[derive(Clone, Copy, Debug, PartialEq, Eq)]
pub struct Item {
    pub value: u8,
    pub len: usize,
}

#[tactic(auto, unfolding(crate::specs::Literals::simple_value))]
fn simple_value(c: u8) -> Option<u8>
    ensures { result ≡ spec.simple_value c }
{
    match c {
        b'n' => Some(10),
        b't' => Some(9),
        b'r' => Some(13),
        b'a' => Some(7),
        b'b' => Some(8),
        b'f' => Some(12),
        b'v' => Some(11),
        b'\\' => Some(b'\\'),
        b'\'' => Some(b'\''),
        b'"' => Some(b'"'),
        b'?' => Some(b'?'),
        _ => None,
    }
}

#[tactic(auto, unfolding(crate::specs::Literals::digit_value))]
fn digit_value(b: u8) -> u8
    ensures { result ≡ spec.digit_value b }
{
    if is_digit(b) {
        b - b'0'
    } else if b >= b'a' {
        b - 87
    } else {
        b.saturating_sub(55)
    }
}

fn value_of(base: u16, digits: &[u8]) -> Option<u8>
    requires some { 0 < base }
    requires few { base ≤ 16 }
    ensures { result ≡ spec.byte (spec.value_in base digits.now) }
{
    let mut value: u16 = 0;
    for b in digits {
        value = value * base + u16::from(digit_value(*b));
        if value > MOST_BYTE {
            return None;
        }
    }
    Some(value as u8)
}

#[tactic(auto, unfolding(crate::specs::Literals::octal_item))]
fn octal_item(s: &[u8]) -> Option<Item>
    ensures { result ≡ spec.octal_item s.now }
{
    let n = octal_len(&s[..s.len().min(3)]);
    match value_of(8, &s[..n]) {
        None => None,
        Some(value) => Some(Item { value, len: n + 1 }),
    }
}

#[tactic(auto, unfolding(crate::specs::Literals::hex_item))]
fn hex_item(s: &[u8]) -> Option<Item>
    requires { length s.now < 2 ^ 62 }
    ensures { result ≡ spec.hex_item s.now }
{
    let n = hex_len(s);
    if n == 0 {
        return None;
    }
    match value_of(16, &s[..n]) {
        None => None,
        Some(value) => Some(Item { value, len: n + 2 }),
    }
}

#[tactic(auto, unfolding(crate::specs::Literals::escape_at))]
fn escape_at(s: &[u8]) -> Option<Item>
    requires { length s.now < 2 ^ 62 }
    ensures { result ≡ spec.escape_at s.now }
{
    match s {
        [] => None,
        [b'0'..=b'7', ..] => octal_item(s),
        [b'x', rest @ ..] => hex_item(rest),
        [c, ..] => match simple_value(*c) {
            None => None,
            Some(value) => Some(Item { value, len: 2 }),
        },
    }
}

/// The item in front of `s`, within a literal with this quote.
#[tactic(auto, unfolding(crate::specs::Literals::item_at))]
pub fn item_at(quote: u8, s: &[u8]) -> Option<Item>
    requires { length s.now < 2 ^ 62 }
    ensures value { result ≡ spec.item_at quote s.now }
    ensures some { IfSome result (λ i. 0 < i.len) }
    ensures within { IfSome result (λ i. i.len ≤ length s.now) }
{
    match s {
        [] => None,
        [b'\\', rest @ ..] => escape_at(rest),
        [b, ..] => {
            if *b == quote || *b == b'\n' {
                None
            } else {
                Some(Item { value: *b, len: 1 })
            }
        }
    }
}

/// Behind the opening quote of a character constant: how many bytes its item and its closing quote take.
#[tactic(auto, unfolding(crate::specs::Literals::char_end))]
pub fn char_end(s: &[u8]) -> Option<usize>
    requires { length s.now < 2 ^ 62 }
    ensures value { result ≡ spec.char_end s.now }
    ensures within { IfSome result (λ n. n ≤ length s.now) }
{
    let item = item_at(b'\'', s)?;
    match &s[item.len..] {
        [b'\'', ..] => Some(item.len + 1),
        _ => None,
    }
}

/// Behind the opening quote of a string literal: how many bytes its items and its closing quote take.
pub fn text_end(s: &[u8]) -> Option<usize>
    requires { length s.now < 2 ^ 62 }
    ensures value { result ≡ spec.text_end s.now }
    ensures within { IfSome result (λ n. n ≤ length s.now) }
{
    let mut at = 0;
    while at < s.len() {
        if s[at] == b'"' {
            return Some(at + 1);
        }
        match item_at(b'"', &s[at..]) {
            None => return None,
            Some(item) => at += item.len,
        }
    }
    None
}
