//! Integer constants, character constants and string literals.

use anyhow::Result;
use bk_arithmetic::integer_type::IntegerType;
use c_typing_literals::{character, integer, put_text};
use row_sheets::escape::unescape;
use std::alloc::Global;

fn name_of(of: IntegerType) -> &'static str {
    match of {
        IntegerType::Char => "char",
        IntegerType::UnsignedChar => "unsigned-char",
        IntegerType::Short => "short",
        IntegerType::UnsignedShort => "unsigned-short",
        IntegerType::Int => "int",
        IntegerType::UnsignedInt => "unsigned-int",
        IntegerType::Long => "long",
        IntegerType::UnsignedLong => "unsigned-long",
    }
}

/// The type of an integer constant, and the word that holds its value.
pub fn integer_answer(alloc: Global, given: &str) -> Result<Vec<u8>> {
    let text = match integer(given.as_bytes()) {
        Some(found) => format!(in alloc; "{} {:x}\n", name_of(found.ty), found.word)?,
        None => format!(in alloc; "none\n")?,
    };
    Ok(text.into_bytes())
}

/// The word of the value of a character constant, which is an `int`.
pub fn character_answer(alloc: Global, given: &str) -> Result<Vec<u8>> {
    let spelling = unescape(alloc, given)?;
    let text = match character(spelling.as_slice()) {
        Some(word) => format!(in alloc; "{word:x}\n")?,
        None => format!(in alloc; "none\n")?,
    };
    Ok(text.into_bytes())
}

/// The bytes of a string literal, without the zero at its end.
pub fn text_answer(alloc: Global, given: &str) -> Result<Vec<u8>> {
    let spelling = unescape(alloc, given)?;
    let mut bytes = Vec::new(alloc);
    put_text(&mut bytes, spelling.as_slice())?;
    bytes.push(b'\n')?;
    Ok(bytes)
}
