//! Integer constants (C99 6.4.4.1).

ghost use Rattle.std.specs.Prelude.{◌≡◌, ◌==◌, pos, drop, take};
ghost use Rattle.bk_arithmetic.specs.IntegerTypes.{fits};
ghost use Rattle.c_lexer.specs.Bytes as bytes;
ghost use Rattle.c_lexer.specs.Numbers as numbers;
ghost use Rattle.c_typing_literals.specs.Integers as spec;

use crate::digits::{digit_len, hex_len, octal_len, value_of};
use bk_arithmetic::integer_type::IntegerType;

/// An integer with its type.
#[derive(Clone, Copy, Debug, PartialEq, Eq)]
pub struct IntegerLiteral {
    pub ty: IntegerType,
    /// The word by which the type holds the value.
    pub word: u64,
}

fn is_u(b: u8) -> bool
    ensures { result ≡ numbers.is_u b }
{
    b == b'u' || b == b'U'
}

fn is_l(b: u8) -> bool
    ensures { result ≡ numbers.is_l b }
{
    b == b'l' || b == b'L'
}

fn has_u(suffix: &[u8]) -> bool
    ensures { result ≡ spec.has_u suffix.now }
{
    suffix.iter().any(|b| is_u(*b))
}

fn has_l(suffix: &[u8]) -> bool
    ensures { result ≡ spec.has_l suffix.now }
{
    suffix.iter().any(|b| is_l(*b))
}

/// Whether the type has the number.
fn holds(ty: IntegerType, n: u64) -> bool
    ensures { result ≡ fits ty (pos n) }
{
    n <= ty.greatest()
}

/// Whether a constant may have the type, by how it is spelled.
fn is_allowed(ty: IntegerType, decimal: bool, unsigned: bool, long: bool) -> bool
    ensures { result ≡ spec.is_allowed decimal unsigned long ty }
{
    match ty {
        IntegerType::Char => false,
        IntegerType::UnsignedChar => false,
        IntegerType::Short => false,
        IntegerType::UnsignedShort => false,
        IntegerType::Int => !unsigned && !long,
        IntegerType::UnsignedInt => (unsigned || !decimal) && !long,
        IntegerType::Long => !unsigned,
        IntegerType::UnsignedLong => unsigned || !decimal,
    }
}

fn takes(ty: IntegerType, decimal: bool, unsigned: bool, long: bool, n: u64) -> bool
    ensures { result ≡ spec.takes decimal unsigned long n ty }
{
    is_allowed(ty, decimal, unsigned, long) && holds(ty, n)
}

/// The first type that takes the value.
fn type_of(decimal: bool, unsigned: bool, long: bool, n: u64) -> Option<IntegerType>
    ensures { result ≡ spec.constant_type decimal unsigned long n }
{
    if takes(IntegerType::Int, decimal, unsigned, long, n) {
        return Some(IntegerType::Int);
    }
    if takes(IntegerType::UnsignedInt, decimal, unsigned, long, n) {
        return Some(IntegerType::UnsignedInt);
    }
    if takes(IntegerType::Long, decimal, unsigned, long, n) {
        return Some(IntegerType::Long);
    }
    if takes(IntegerType::UnsignedLong, decimal, unsigned, long, n) {
        return Some(IntegerType::UnsignedLong);
    }
    None
}

fn literal(decimal: bool, suffix: &[u8], n: u64) -> Option<IntegerLiteral>
    ensures { result ≡ spec.literal decimal suffix.now n }
{
    match type_of(decimal, has_u(suffix), has_l(suffix), n) {
        None => None,
        Some(ty) => Some(IntegerLiteral {
            ty,
            word: ty.extend(n),
        }),
    }
}

fn hexadecimal(s: &[u8]) -> Option<IntegerLiteral>
    ensures { result ≡ spec.literal_in 16 bytes.is_hex s.now }
{
    let count = hex_len(s);
    match value_of(16, &s[..count]) {
        None => None,
        Some(n) => literal(false, &s[count..], n),
    }
}

fn octal(s: &[u8]) -> Option<IntegerLiteral>
    ensures { result ≡ spec.literal_in 8 bytes.is_octal s.now }
{
    let count = octal_len(s);
    match value_of(8, &s[..count]) {
        None => None,
        Some(n) => literal(false, &s[count..], n),
    }
}

fn decimal(s: &[u8]) -> Option<IntegerLiteral>
    ensures { result ≡ spec.literal_in 10 bytes.is_digit s.now }
{
    let count = digit_len(s);
    match value_of(10, &s[..count]) {
        None => None,
        Some(n) => literal(true, &s[count..], n),
    }
}

/// What an integer constant stands for, from its spelling; `None` where no type of its list holds the value.
pub fn integer(spelling: &[u8]) -> Option<IntegerLiteral>
    ensures { result ≡ spec.integer_literal spelling.now }
{
    match spelling {
        [b'0', b'x' | b'X', rest @ ..] => hexadecimal(rest),
        [b'0', ..] => octal(spelling),
        _ => decimal(spelling),
    }
}
