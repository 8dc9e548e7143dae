//! Programs over temporaries that are selected.

use alpha_select::select;
use anyhow::{Result, ensure};
use row_vm_texts::reader::VmReader;
use row_vm_texts::text::names_of;
use std::alloc::Global;
use suifvm_checks::size::is_small;
use temp_ir::temp_text;

/// The text of the program that is selected for that of a row.
pub fn answer(alloc: Global, given: &str) -> Result<Vec<u8>> {
    let mut reader = VmReader::new(alloc, names_of(alloc, given)?);
    for line in given.lines() {
        if line != "select" {
            reader.take(line)?;
        }
    }
    let program = reader.program()?;
    ensure!(is_small(&program), "the program is too large");
    let selected = select(alloc, &program)?;
    Ok(temp_text(alloc, &selected)?)
}
