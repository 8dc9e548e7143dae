//! Calls that are made twice: as a row has them, and with more words behind.

use crate::call::{answer, answer_for_text};
use crate::compiler::Compiler;
use anyhow::Result;
use std::alloc::{AllocError, Global};

/// Puts the second answer behind the first one, where it is another.
fn put_difference(shown: &mut Vec<u8>, more: &str, second: &[u8]) -> Result<(), AllocError> {
    if shown.as_slice() == second {
        return Ok(());
    }
    shown.extend_from_slice(more.as_bytes())?;
    shown.extend_from_slice(b": ")?;
    shown.extend_from_slice(second)?;
    Ok(())
}

/// What comes for the lines of a row, of which the last has the words of the call, and for the same with more words
/// behind: one answer, where both come to the same.
pub fn answer_twice<C: Compiler>(
    alloc: Global,
    compiler: &C,
    given: &str,
    more: &str,
) -> Result<Vec<u8>> {
    let mut shown = answer(alloc, compiler, given)?;
    let again = format!(in alloc; "{given}{more}")?;
    let second = answer(alloc, compiler, again.as_str())?;
    put_difference(&mut shown, more, second.as_slice())?;
    Ok(shown)
}

/// What comes for a call with the words of a line over one file with this text, without input, and for the same with
/// more words behind: one answer, where both come to the same.
pub fn answer_for_text_twice<C: Compiler>(
    alloc: Global,
    compiler: &C,
    line: &str,
    more: &str,
    name: &str,
    text: &str,
) -> Result<Vec<u8>> {
    let mut shown = answer_for_text(alloc, compiler, line, name, text)?;
    let again = format!(in alloc; "{line}{more}")?;
    let second = answer_for_text(alloc, compiler, again.as_str(), name, text)?;
    put_difference(&mut shown, more, second.as_slice())?;
    Ok(shown)
}
