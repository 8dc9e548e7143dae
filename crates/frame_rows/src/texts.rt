//! The items of functions as text.

use crate::program::program_of;
use alpha_lines::print::push_item;
use anyhow::Result;
use std::alloc::Global;

/// The lines of the items of each function, and the size of its frame.
pub fn answer(alloc: Global, given: &str) -> Result<Vec<u8>> {
    let program = program_of(alloc, given)?;
    let mut text = Vec::new(alloc);
    for made in &program.finals {
        for item in &made.items {
            push_item(&mut text, item)?;
            text.push(b'\n')?;
        }
        let frame = made.frame;
        let labels = made.labels;
        let line = format!(in alloc; "frame {frame}, labels {labels}\n")?;
        text.extend_from_slice(line.as_bytes())?;
    }
    Ok(text)
}
