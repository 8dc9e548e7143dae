//! Integer constants (C99 6.4.4.1).

ghost use Rattle.std.specs.Prelude.{◌≡◌};
ghost use Rattle.c_lexer.specs.Bytes as bytes;
ghost use Rattle.c_lexer.specs.Numbers as spec;

use crate::bytes::{digit_len, hex_len, is_digit, is_hex, octal_len};

fn is_u(b: u8) -> bool
    ensures { result ≡ spec.is_u b }
{
    b == b'u' || b == b'U'
}

fn is_l(b: u8) -> bool
    ensures { result ≡ spec.is_l b }
{
    b == b'l' || b == b'L'
}

#[tactic(auto, unfolding(crate::specs::Numbers::is_suffix))]
fn is_suffix(s: &[u8]) -> bool
    ensures { result ≡ spec.is_suffix s.now }
{
    match s {
        [] => true,
        [a] => is_u(*a) || is_l(*a),
        [a, b] => (is_u(*a) && is_l(*b)) || (is_l(*a) && is_u(*b)),
        _ => false,
    }
}

#[tactic(auto, unfolding(crate::specs::Numbers::are_digits))]
fn are_decimal(s: &[u8]) -> bool
    ensures { result ≡ spec.are_digits bytes.is_digit s.now }
{
    is_suffix(&s[digit_len(s)..])
}

#[tactic(auto, unfolding(crate::specs::Numbers::are_digits))]
fn are_octal(s: &[u8]) -> bool
    ensures { result ≡ spec.are_digits bytes.is_octal s.now }
{
    is_suffix(&s[octal_len(s)..])
}

#[tactic(auto, unfolding(crate::specs::Numbers::are_digits))]
fn are_hex(s: &[u8]) -> bool
    ensures { result ≡ spec.are_digits bytes.is_hex s.now }
{
    is_suffix(&s[hex_len(s)..])
}

#[tactic(auto, unfolding(crate::specs::Numbers::is_hexadecimal))]
fn is_hexadecimal(s: &[u8]) -> bool
    ensures { result ≡ spec.is_hexadecimal s.now }
{
    match s {
        [x, d, rest @ ..] => (*x == b'x' || *x == b'X') && is_hex(*d) && are_hex(rest),
        _ => false,
    }
}

/// Whether a run of letters, digits and points is an integer constant.
#[tactic(auto, unfolding(crate::specs::Numbers::is_number))]
pub fn is_number(s: &[u8]) -> bool
    ensures { result ≡ spec.is_number s.now }
{
    match s {
        [] => false,
        [b'0', rest @ ..] => is_hexadecimal(rest) || are_octal(rest),
        [b, rest @ ..] => is_digit(*b) && are_decimal(rest),
    }
}
