//! That no block of a function needs a slot.

use alloc_rules::scan::no_needs;
use anyhow::Result;
use row_temp_texts::reader::TempReader;
use std::alloc::Global;

/// A line for each block, with the least temporary in need of it, if there is one.
pub fn answer(alloc: Global, given: &str) -> Result<Vec<u8>> {
    let reader = TempReader::of(alloc, given)?;
    let mut shown = Vec::new(alloc);
    for function in &reader.functions {
        let needs = no_needs(alloc, function)?;
        for set in needs.need.as_slice() {
            let line = format!(in alloc; "{:?}\n", set.next_from(0))?;
            shown.extend_from_slice(line.as_bytes())?;
        }
    }
    Ok(shown)
}
