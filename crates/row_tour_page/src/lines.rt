//! The lines of the texts of passes.

use anyhow::Result;
use std::alloc::{AllocError, Global};

/// Whether a line is an instruction, which has its number in front.
pub fn is_instruction(line: &str) -> bool {
    matches!(line.as_bytes().first(), Some(b'0'..=b'9'))
}

/// The lines of a function in the text of a pass, behind the one that names it, up to the next function.
pub fn function_lines(alloc: Global, text: &str, name: &str) -> Result<Vec<String>, AllocError> {
    let mut is_within = false;
    let mut found = Vec::new(alloc);
    for line in text.lines() {
        if let Some(other) = line.strip_prefix("func ") {
            is_within = other == name;
        } else if is_within {
            found.push(line.to_string(alloc)?)?;
        }
    }
    Ok(found)
}

/// Those of some lines that are instructions.
pub fn instruction_lines(alloc: Global, lines: &[String]) -> Result<Vec<String>, AllocError> {
    let mut found = Vec::new(alloc);
    for line in lines {
        if is_instruction(line.as_str()) {
            found.push(line.as_str().to_string(alloc)?)?;
        }
    }
    Ok(found)
}

/// Writes lines as they stand.
pub fn put_lines(rt: &HostRuntime, lines: &[String]) -> Result<()> {
    for line in lines {
        println!(rt; "{line}")?;
    }
    Ok(())
}
