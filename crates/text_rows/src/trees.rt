//! Texts with their trees, and with how deep they nest.

use anyhow::{Context, Result, ensure};
use c_lexer::TEXT_LIMIT;
use c_parser::{ParseFault, nest, parse};
use c_tree_text::tree_text;
use row_sheets::escape::unescape;
use std::alloc::{AllocError, Global};

/// A line for what refused a text.
pub fn refusal_line(alloc: Global, fault: ParseFault) -> Result<Vec<u8>, AllocError> {
    let shown = match fault {
        ParseFault::Lex { at } => format!(in alloc; "Lex {at}\n")?,
        ParseFault::Nesting { counted } => format!(in alloc; "Nesting {counted}\n")?,
        ParseFault::Syntax { at } => format!(in alloc; "Syntax {at}\n")?,
        ParseFault::NoMemory => "NoMemory\n".to_string(alloc)?,
    };
    Ok(shown.into_bytes())
}

/// The lines of a text's tree, or why it has none.
pub fn tree(alloc: Global, given: &str) -> Result<Vec<u8>> {
    let text = unescape(alloc, given)?;
    ensure!(text.len() <= TEXT_LIMIT, "a text that is too long");
    Ok(match parse(alloc, text.as_slice()) {
        Ok(unit) => tree_text(alloc, &unit)?,
        Err(fault) => refusal_line(alloc, fault)?,
    })
}

/// Whether a text has a tree, or why it has none.
pub fn is_read(alloc: Global, given: &str) -> Result<Vec<u8>> {
    let text = unescape(alloc, given)?;
    ensure!(text.len() <= TEXT_LIMIT, "a text that is too long");
    Ok(match parse(alloc, text.as_slice()) {
        Ok(_unit) => "read\n".to_string(alloc)?.into_bytes(),
        Err(fault) => refusal_line(alloc, fault)?,
    })
}

/// Why a text is refused, and whether what stands before the refused token is read with other tokens
/// behind it.
pub fn completion(alloc: Global, given: &str) -> Result<Vec<u8>> {
    let (text, tokens) = given.split_once(" ... ").context("no ` ... `")?;
    let text = unescape(alloc, text)?;
    ensure!(text.len() <= TEXT_LIMIT, "a text that is too long");
    let at = match parse(alloc, text.as_slice()) {
        Err(ParseFault::Syntax { at }) => at,
        Err(fault) => return Ok(refusal_line(alloc, fault)?),
        Ok(_unit) => return Ok("read\n".to_string(alloc)?.into_bytes()),
    };
    let front = text.get(..at as usize).context("a place beyond the text")?;
    let mut whole = Vec::from_slice(alloc, front)?;
    whole.extend_from_slice(unescape(alloc, tokens)?.as_slice())?;
    ensure!(whole.len() <= TEXT_LIMIT, "a text that is too long");
    let mut shown = format!(in alloc; "Syntax {at}, ")?.into_bytes();
    match parse(alloc, whole.as_slice()) {
        Ok(_unit) => shown.extend_from_slice(b"read\n")?,
        Err(fault) => shown.extend_from_slice(refusal_line(alloc, fault)?.as_slice())?,
    }
    Ok(shown)
}

/// How deep a text nests.
pub fn nesting(alloc: Global, given: &str) -> Result<Vec<u8>> {
    let text = unescape(alloc, given)?;
    ensure!(text.len() <= TEXT_LIMIT, "a text that is too long");
    Ok(match nest(alloc, text.as_slice()) {
        Ok(counted) => format!(in alloc; "{counted}\n")?.into_bytes(),
        Err(fault) => refusal_line(alloc, fault)?,
    })
}
