//! Types and numbers, as the rows write them.

use c_typed_tree::CType;
use std::alloc::{AllocError, Global};

/// Puts a text.
pub fn put(out: &mut Vec<u8>, text: &str) -> Result<(), AllocError> {
    out.extend_from_slice(text.as_bytes())
}

/// Puts a number.
pub fn put_number(alloc: Global, out: &mut Vec<u8>, number: u64) -> Result<(), AllocError> {
    let text = format!(in alloc; "{number}")?;
    put(out, text.as_str())
}

/// Puts a word as a number with a sign.
fn put_signed(alloc: Global, out: &mut Vec<u8>, word: u64) -> Result<(), AllocError> {
    let number = word.cast_signed();
    let text = format!(in alloc; "{number}")?;
    put(out, text.as_str())
}

/// The name of an integer type.
fn integer_word(bytes: u8, signed: bool) -> &'static str {
    match (bytes, signed) {
        (1, true) => "char",
        (1, false) => "uchar",
        (2, true) => "short",
        (2, false) => "ushort",
        (4, true) => "int",
        (4, false) => "uint",
        (8, true) => "long",
        (8, false) => "ulong",
        _ => "?",
    }
}

/// Puts a type: a star or a length stands behind the type that it is of.
pub fn put_type(alloc: Global, out: &mut Vec<u8>, ty: &CType) -> Result<(), AllocError> {
    match ty {
        CType::Void => put(out, "void"),
        CType::Int { bytes, signed } => put(out, integer_word(*bytes, *signed)),
        CType::Pointer(target) => {
            put_type(alloc, out, target)?;
            put(out, "*")
        }
        CType::Array(element, length) => {
            put_type(alloc, out, element)?;
            put(out, "[")?;
            put_number(alloc, out, *length)?;
            put(out, "]")
        }
        CType::Struct(number) => {
            put(out, "s")?;
            put_number(alloc, out, u64::from(*number))
        }
    }
}

/// The number that a word of an integer type is, where the type has no sign. Words of 32 bits are held with their
/// highest bit repeated above.
fn without_sign(bytes: u8, word: u64) -> u64 {
    if bytes == 4 {
        word % 4_294_967_296
    } else {
        word
    }
}

/// Puts a word of a type: with a sign, where the type has one.
pub fn put_value(
    alloc: Global,
    out: &mut Vec<u8>,
    ty: &CType,
    word: u64,
) -> Result<(), AllocError> {
    match ty {
        CType::Int {
            bytes,
            signed: false,
        } => put_number(alloc, out, without_sign(*bytes, word)),
        _ => put_signed(alloc, out, word),
    }
}
