//! Where `plain` puts the temporaries of functions.

use alloc_lines::alloc_text;
use alloc_model::allocation::Allocation;
use alloc_plain::plain;
use anyhow::{Result, bail};
use pass_core::function::Func;
use row_temp_texts::reader::TempReader;
use std::alloc::Global;
use temp_checks::is_settled;
use temp_ir::insn::TempInsn;

/// The plainest allocation of a function.
pub fn plain_of(alloc: Global, f: &Func<TempInsn>) -> Result<Allocation> {
    if !is_settled(alloc, f)? {
        bail!("a fixed register is read that was not written in its block");
    }
    Ok(plain(alloc, f)?)
}

/// The text of the plainest allocation of each function, or that one is not settled.
pub fn answer(alloc: Global, given: &str) -> Result<Vec<u8>> {
    let reader = TempReader::of(alloc, given)?;
    let mut text = Vec::new(alloc);
    for function in &reader.functions {
        if is_settled(alloc, function)? {
            let a = plain(alloc, function)?;
            text.extend_from_slice(alloc_text(alloc, &a)?.as_slice())?;
        } else {
            text.extend_from_slice(b"not settled\n")?;
        }
    }
    Ok(text)
}
