//! Assembly texts, read and printed again.

use alpha_items::asm::Asm;
use alpha_text::fault::TextFault;
use alpha_text::print::print_asm;
use alpha_text::read::read_asm;
use anyhow::{Result, bail};
use row_sheets::escape::unescape;
use std::alloc::Global;

/// How much an assembly has of what, and its text where that is another than the one that was read.
fn text_of(alloc: Global, text: &[u8], asm: &Asm) -> Result<Vec<u8>> {
    let items = asm.items.len();
    let bytes = asm.bytes.len();
    let fixes = asm.fixes.len();
    let mut shown = format!(in alloc; "items {items} bytes {bytes} fixes {fixes}\n")?.into_bytes();
    let printed = print_asm(alloc, asm)?;
    if printed.as_slice() != text {
        shown.extend_from_slice(b"printed as\n")?;
        shown.extend_from_slice(printed.as_slice())?;
    }
    Ok(shown)
}

/// What an assembly text is read as, or why it is not.
pub fn answer(alloc: Global, given: &str) -> Result<Vec<u8>> {
    let text = unescape(alloc, given)?;
    match read_asm(alloc, text.as_slice()) {
        Ok(asm) => text_of(alloc, text.as_slice(), &asm),
        Err(TextFault::Line { line }) => Ok(format!(in alloc; "line {line}\n")?.into_bytes()),
        Err(TextFault::Data { counted }) => Ok(format!(in alloc; "data {counted}\n")?.into_bytes()),
        Err(TextFault::NoMemory) => bail!("there was no memory"),
    }
}
