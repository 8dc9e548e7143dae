//! What calls of the compiler come to over one C file.

use anyhow::Result;
use row_calls::{Compiler, outcome_of, output_of};
use std::alloc::{AllocError, Global};

/// A C file.
#[derive(Clone, Copy)]
pub struct CFile<'a> {
    pub name: &'a str,
    pub text: &'a str,
}

/// This file alone, as calls have their files.
fn files_with(alloc: Global, file: &CFile<'_>) -> Result<Vec<(String, Vec<u8>)>, AllocError> {
    let mut files = Vec::new(alloc);
    files.push((
        file.name.to_string(alloc)?,
        file.text.to_string(alloc)?.into_bytes(),
    ))?;
    Ok(files)
}

/// What a call of the compiler writes over a file.
pub fn output<C: Compiler>(
    alloc: Global,
    compiler: &C,
    call: &str,
    file: &CFile<'_>,
) -> Result<Vec<u8>> {
    output_of(alloc, compiler, call, files_with(alloc, file)?)
}

/// The same where what is written is a text.
pub fn output_text<C: Compiler>(
    alloc: Global,
    compiler: &C,
    call: &str,
    file: &CFile<'_>,
) -> Result<String> {
    let shown = output(alloc, compiler, call, file)?;
    Ok(str::from_utf8(shown.as_slice())?.to_string(alloc)?)
}

/// The outcome of a call of the compiler over a file.
pub fn outcome<C: Compiler>(
    alloc: Global,
    compiler: &C,
    call: &str,
    file: &CFile<'_>,
) -> Result<String> {
    outcome_of(alloc, compiler, call, files_with(alloc, file)?)
}
