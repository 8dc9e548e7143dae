//! What is live in functions, and the lifetimes of their temporaries.

use alloc_live_lines::live_text;
use anyhow::Result;
use bitvector_flow::liveness;
use cfg::build;
use lifetime_holes::lifetimes;
use pass_core::function::Func;
use row_temp_texts::reader::TempReader;
use std::alloc::{AllocError, Global};
use temp_ir::insn::TempInsn;

/// The text of a function.
fn text_of(alloc: Global, f: &Func<TempInsn>) -> Result<Vec<u8>, AllocError> {
    let graph = build(alloc, f)?;
    let live = liveness(alloc, f, &graph)?;
    let lives = lifetimes(alloc, f, &live)?;
    live_text(alloc, f, &live, &lives)
}

/// The text of each function.
pub fn answer(alloc: Global, given: &str) -> Result<Vec<u8>> {
    let reader = TempReader::of(alloc, given)?;
    let mut text = Vec::new(alloc);
    for function in &reader.functions {
        text.extend_from_slice(text_of(alloc, function)?.as_slice())?;
    }
    Ok(text)
}
