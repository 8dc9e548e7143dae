//! The words of assembly texts.

use alpha_asm::assemble::{AsmFault, assemble};
use alpha_text::read::read_asm;
use anyhow::{Result, bail};
use row_sheets::escape::unescape;
use std::alloc::Global;

/// Shows a word that stands so often in a row.
fn push_word(alloc: Global, shown: &mut Vec<u8>, word: u32, times: u64) -> Result<()> {
    let line = if times == 1 {
        format!(in alloc; "{word:08x}\n")?
    } else {
        format!(in alloc; "{word:08x} {times} times\n")?
    };
    shown.extend_from_slice(line.as_bytes())?;
    Ok(())
}

/// Shows words, equal ones that follow each other in one line.
fn text_of(alloc: Global, words: &[u32]) -> Result<Vec<u8>> {
    let mut shown = Vec::new(alloc);
    let mut times = 1u64;
    for (at, word) in words.iter().enumerate() {
        if words.get(at.saturating_add(1)) == Some(word) {
            times = times.saturating_add(1);
            continue;
        }
        push_word(alloc, &mut shown, *word, times)?;
        times = 1;
    }
    Ok(shown)
}

/// The words of the image of an assembly text.
pub fn answer(alloc: Global, given: &str) -> Result<Vec<u8>> {
    let mut text = unescape(alloc, given)?;
    text.push(b'\n')?;
    let asm = read_asm(alloc, text.as_slice())?;
    match assemble(alloc, &asm) {
        Ok(image) => text_of(alloc, image.words.as_slice()),
        Err(AsmFault::CodeTooLong { words }) => bail!("{words} words"),
        Err(AsmFault::NoMemory) => bail!("there was no memory"),
    }
}
