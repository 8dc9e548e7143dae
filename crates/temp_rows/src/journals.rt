//! What `plain` does at each instruction of functions.

use crate::placements::plain_of;
use alloc_lines::journal_text;
use anyhow::Result;
use row_temp_texts::reader::TempReader;
use std::alloc::Global;

/// The text of the journal of the plainest allocation of each function.
pub fn answer(alloc: Global, given: &str) -> Result<Vec<u8>> {
    let reader = TempReader::of(alloc, given)?;
    let mut text = Vec::new(alloc);
    for function in &reader.functions {
        let a = plain_of(alloc, function)?;
        text.extend_from_slice(journal_text(alloc, &a)?.as_slice())?;
    }
    Ok(text)
}
