//! Where a scan puts the temporaries of functions, and what it does at each instruction.

use alloc_lines::{alloc_text, journal_text};
use alloc_model::allocation::Allocation;
use anyhow::{Result, bail};
use binpack_scan::binpack;
use pass_core::function::Func;
use row_temp_texts::reader::TempReader;
use std::alloc::Global;
use temp_checks::is_settled;
use temp_ir::insn::TempInsn;

/// The allocation of a function by a scan.
pub fn scanned(alloc: Global, f: &Func<TempInsn>) -> Result<Allocation> {
    if !is_settled(alloc, f)? {
        bail!("a fixed register is read that was not written in its block");
    }
    Ok(binpack(alloc, f)?)
}

/// The text of the allocation of each function by a scan, and then that of its journal.
pub fn answer(alloc: Global, given: &str) -> Result<Vec<u8>> {
    let reader = TempReader::of(alloc, given)?;
    let mut text = Vec::new(alloc);
    for function in &reader.functions {
        let a = scanned(alloc, function)?;
        text.extend_from_slice(alloc_text(alloc, &a)?.as_slice())?;
        text.extend_from_slice(journal_text(alloc, &a)?.as_slice())?;
    }
    Ok(text)
}
