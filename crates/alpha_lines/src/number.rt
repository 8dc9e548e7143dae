//! Decimal numbers without leading zeros.

ghost use Rattle.std.specs.Prelude.{◌≡◌, ◌<◌, ◌≤◌, ◌^◌, ℕ, ℤ, ◌++◌, ◌↔◌, decimal, OnOk, IsTrue, IfSome, Some};
ghost use Rattle.std.specs.Fmt.{signed_decimal};
ghost use Rattle.alpha_isa.specs.Lawful.{IsDisplacement};
ghost use Rattle.alpha_lines.specs.model.Numbers.{number_of, displacement_of};

use itoa::Buffer;
use std::alloc::AllocError;
use std::str;

/// Whether the bytes are the decimal text of the number.
fn spells_number(s: &[u8], n: u64) -> bool
    ensures { IsTrue result ↔ (s.now ≡ decimal n) }
{
    let mut digits = Buffer::new();
    s == digits.format(n).as_bytes()
}

/// Whether the bytes are the decimal text of the number, with its sign.
fn spells_displacement(s: &[u8], n: i16) -> bool
    ensures { IsTrue result ↔ (s.now ≡ signed_decimal n) }
{
    let mut buffer = Buffer::new();
    s == buffer.format(n).as_bytes()
}

/// What the bytes are as a number, which is the one that they spell if they spell any.
fn parse_number(s: &[u8]) -> Option<u64>
    ensures { (n : ℕ) → n < 2 ^ 64 → s.now ≡ decimal n → result ≡ Some n }
{
    match str::from_utf8(s) {
        Ok(text) => text.parse::<u64>().ok(),
        Err(_) => None,
    }
}

/// What the bytes are as a number with a sign, which is the one that they spell if they spell any.
fn parse_displacement(s: &[u8]) -> Option<i16>
    ensures only { (z : ℤ) → IsDisplacement z → s.now ≡ signed_decimal z → result ≡ Some z }
    ensures within { IfSome result (λ z. IsDisplacement z) }
{
    match str::from_utf8(s) {
        Ok(text) => text.parse::<i16>().ok(),
        Err(_) => None,
    }
}

/// The number that the bytes spell, if it is at most the given one.
pub(crate) fn number(s: &[u8], most: u64) -> Option<u64>
    ensures value { result ≡ number_of most s.now }
    ensures within { IfSome result (λ n. n ≤ most) }
{
    let Some(n) = parse_number(s) else {
        return None;
    };
    if n > most {
        return None;
    }
    if !spells_number(s, n) {
        return None;
    }
    Some(n)
}

/// The number of 16 bits in two's complement that the bytes spell.
pub(crate) fn displacement(s: &[u8]) -> Option<i16>
    ensures value { result ≡ displacement_of s.now }
    ensures within { IfSome result (λ z. IsDisplacement z) }
{
    let Some(n) = parse_displacement(s) else {
        return None;
    };
    if !spells_displacement(s, n) {
        return None;
    }
    Some(n)
}

/// Appends a number.
pub(crate) fn push_number(line: &mut Vec<u8>, n: u64) -> Result<(), AllocError>
    ensures { OnOk result (line.new.items ≡ line.old.items ++ decimal n) }
{
    let mut buffer = Buffer::new();
    line.extend_from_slice(buffer.format(n).as_bytes())
}

/// Appends a number with its sign.
pub(crate) fn push_displacement(line: &mut Vec<u8>, n: i16) -> Result<(), AllocError>
    ensures { OnOk result (line.new.items ≡ line.old.items ++ signed_decimal n) }
{
    let mut buffer = Buffer::new();
    line.extend_from_slice(buffer.format(n).as_bytes())
}
