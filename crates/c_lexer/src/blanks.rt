//! Comments (C99 6.4.9) and linemarkers.

ghost use Rattle.std.specs.Prelude.{◌≡◌, ◌≤◌, ◌<◌, ◌^◌, ◌-◌, IfSome, length, slice_index};
ghost use Rattle.std.specs.List.{list_all};
ghost use Rattle.c_lexer.specs.Blanks as spec;
ghost use Rattle.c_lexer.specs.Bytes as bytes;

use crate::bytes::{digit_len, gap_len, is_digit, is_gap};

fn ends(a: u8, b: u8) -> bool
    ensures { result ≡ spec.ends a b }
{
    a == b'*' && b == b'/'
}

/// How many bytes there are up to and with the first `*/`.
pub fn close_at(s: &[u8]) -> Option<usize>
    ensures value { result ≡ spec.close_at s.now }
    ensures within { IfSome result (λ n. n ≤ length s.now) }
{
    for i in 1..s.len() {
        if ends(s[i - 1], s[i]) {
            return Some(i + 1);
        }
    }
    None
}

fn name_item_len(b: u8) -> usize
    ensures { result ≡ spec.name_item_len b }
{
    if b == b'\\' { 2 } else { 1 }
}

/// How many bytes there are up to and with the closing quote of a name.
fn name_end(s: &[u8]) -> Option<usize>
    requires { length s.now < 2 ^ 62 }
    ensures value { result ≡ spec.name_end s.now }
    ensures within { IfSome result (λ n. n ≤ length s.now) }
{
    let mut at = 0;
    while at < s.len() {
        if s[at] == b'"' {
            return Some(at + 1);
        }
        at += name_item_len(s[at]);
    }
    None
}

fn are_gaps_and_digits(s: &[u8]) -> bool
    ensures { result ≡ list_all spec.is_gap_or_digit s.now }
{
    s.iter().all(|b| is_gap(*b) || is_digit(*b))
}

fn ends_in_digit(s: &[u8]) -> bool
    requires { 0 < length s.now }
    ensures { result ≡ bytes.is_digit (slice_index s.now (length s.now - 1)) }
{
    is_digit(s[s.len() - 1])
}

#[tactic(auto, unfolding(crate::specs::Blanks::are_numbers))]
fn are_numbers(s: &[u8]) -> bool
    ensures { result ≡ spec.are_numbers s.now }
{
    match s {
        [] => true,
        [first, ..] => is_gap(*first) && ends_in_digit(s) && are_gaps_and_digits(s),
    }
}

#[tactic(auto, unfolding(crate::specs::Blanks::is_named))]
fn is_named(s: &[u8]) -> bool
    requires { length s.now < 2 ^ 62 }
    ensures { result ≡ spec.is_named s.now }
{
    match s {
        [b'"', rest @ ..] => match name_end(rest) {
            None => false,
            Some(n) => are_numbers(&rest[n..]),
        },
        _ => false,
    }
}

#[tactic(auto, unfolding(crate::specs::Blanks::is_marker_end))]
fn is_marker_end(s: &[u8]) -> bool
    requires { length s.now < 2 ^ 62 }
    ensures { result ≡ spec.is_marker_end s.now }
{
    if s.is_empty() {
        return true;
    }
    let n = gap_len(s);
    n != 0 && is_named(&s[n..])
}

fn is_marker_number(s: &[u8]) -> bool
    requires { length s.now < 2 ^ 62 }
    ensures { result ≡ spec.has_run_then bytes.is_digit spec.is_marker_end s.now }
{
    let n = digit_len(s);
    n != 0 && is_marker_end(&s[n..])
}

/// Whether a line goes on as a linemarker behind its `#`.
#[tactic(auto, unfolding(crate::specs::Blanks::is_linemarker))]
pub fn is_linemarker(s: &[u8]) -> bool
    requires { length s.now < 2 ^ 62 }
    ensures { result ≡ spec.is_linemarker s.now }
{
    let n = gap_len(s);
    n != 0 && is_marker_number(&s[n..])
}

/// Whether only spaces and tabs stand before a place on its line, by the text before the place.
#[tactic(auto, unfolding(crate::specs::Blanks::is_line_start))]
pub fn is_line_start(before: &[u8]) -> bool
    ensures { result ≡ spec.is_line_start before.now }
{
    before
        .iter()
        .rev()
        .take_while(|b| **b != b'\n')
        .all(|b| is_gap(*b))
}
