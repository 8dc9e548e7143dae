//! The texts of programs as rows give them.

use anyhow::{Result, ensure};
use std::alloc::Global;
use suifvm_ir::program::VmProgram;
use suifvm_ir::vm_text;

/// The most bytes that a run of a row's program may write.
pub const ROOM: u64 = 65_536;

/// The names of the functions of a program.
pub fn names_of(alloc: Global, given: &str) -> Result<Vec<String>> {
    let mut names = Vec::new(alloc);
    for line in given.lines() {
        if let Some(name) = line.strip_prefix("func ") {
            names.push(name.to_string(alloc)?)?;
        }
    }
    Ok(names)
}

/// The lines of a row that the text of its program has: functions, blocks and instructions.
fn lines_of_text(alloc: Global, given: &str) -> Result<Vec<u8>> {
    let mut text = Vec::new(alloc);
    for line in given.lines() {
        let word = line.split(' ').next().unwrap_or(line);
        let is_shown = match word {
            "global" | "params" | "registers" | "object" => false,
            "input" | "failing-inputs" | "failing-puts" | "turns" | "behind" => false,
            _ => true,
        };
        if is_shown {
            text.extend_from_slice(line.as_bytes())?;
            text.push(b'\n')?;
        }
    }
    Ok(text)
}

/// Refuses a program whose text is not the one that a row gives.
pub fn check_text(alloc: Global, program: &VmProgram, given: &str) -> Result<()> {
    let text = vm_text(alloc, program)?;
    ensure!(
        text.as_slice() == lines_of_text(alloc, given)?.as_slice(),
        "the program's text is another one"
    );
    Ok(())
}
