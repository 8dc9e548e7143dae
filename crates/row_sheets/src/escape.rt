//! The escapes by which the files write bytes.

use crate::number::hexadecimal;
use anyhow::{Result, bail};
use std::alloc::{AllocError, Global};

/// The byte that a text begins with, and what stands behind it.
fn take_byte(text: &[u8]) -> Result<(u8, &[u8])> {
    match text {
        [b'\\', b'n', rest @ ..] => Ok((b'\n', rest)),
        [b'\\', b't', rest @ ..] => Ok((b'\t', rest)),
        [b'\\', b'r', rest @ ..] => Ok((b'\r', rest)),
        [b'\\', b'x', high, low, rest @ ..] => Ok((hexadecimal(*high, *low)?, rest)),
        [b'\\', sign, rest @ ..] if !sign.is_ascii_alphanumeric() => Ok((*sign, rest)),
        [b'\\', ..] => bail!("an unknown escape"),
        [byte, rest @ ..] => Ok((*byte, rest)),
        [] => bail!("a text ends too early"),
    }
}

/// The number that a text begins with, and what stands behind its digits.
fn take_count(text: &[u8]) -> (usize, &[u8]) {
    let mut count = 0usize;
    let mut rest = text;
    for byte in text {
        if !byte.is_ascii_digit() {
            break;
        }
        let digit = byte.saturating_sub(b'0');
        count = count.saturating_mul(10).saturating_add(digit as usize);
        rest = rest.get(1..).unwrap_or(&[]);
    }
    (count, rest)
}

/// What `\N{..}` stands for, which a text begins with past its backslash, and what stands behind it.
fn take_repeated<'a>(alloc: Global, text: &'a [u8], into: &mut Vec<u8>) -> Result<&'a [u8]> {
    let (count, rest) = take_count(text);
    let Some((b'{', mut rest)) = rest.split_first() else {
        bail!("no brace behind the number of an escape");
    };
    let mut part = Vec::new(alloc);
    for _ in 0..text.len() {
        if let Some((b'}', behind)) = rest.split_first() {
            for _ in 0..count {
                into.extend_from_slice(part.as_slice())?;
            }
            return Ok(behind);
        }
        let (byte, behind) = take_byte(rest)?;
        part.push(byte)?;
        rest = behind;
    }
    bail!("a repeated text without an end")
}

/// The bytes that a text stands for: `\n`, `\t` and `\r` are those of C, `\xHH` is a byte, `\N{TEXT}` is
/// N times the text, and a backslash takes away what any other sign means.
pub fn unescape(alloc: Global, text: &str) -> Result<Vec<u8>> {
    let mut bytes = Vec::new(alloc);
    let mut rest = text.as_bytes();
    for _ in 0..text.len() {
        match rest {
            [] => break,
            [b'\\', tail @ ..] if tail.first().is_some_and(|byte| byte.is_ascii_digit()) => {
                rest = take_repeated(alloc, tail, &mut bytes)?;
            }
            _ => {
                let (byte, behind) = take_byte(rest)?;
                bytes.push(byte)?;
                rest = behind;
            }
        }
    }
    Ok(bytes)
}

/// The bytes as the files write them.
pub fn escape(alloc: Global, bytes: &[u8]) -> Result<String, AllocError> {
    let mut text = String::new(alloc);
    for byte in bytes {
        match *byte {
            b'\n' => text.push_str("\\n")?,
            b'\\' => text.push_str("\\\\")?,
            32..=126 => text.push(*byte as char)?,
            byte => text.push_str(&format!(in alloc; "\\x{byte:02x}")?)?,
        }
    }
    Ok(text)
}
