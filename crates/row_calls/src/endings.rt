//! How the C files of a folder end by the commands of a compiler that run them.

use crate::compiler::{Compiler, Outside, words_of};
use anyhow::{Context, Result};
use std::alloc::Global;
use std::fs;

/// How a file ends on an input by a command, with what it put and what was written for errors.
fn ending<C: Compiler>(
    alloc: Global,
    compiler: &C,
    command: &str,
    file: &str,
    text: Vec<u8>,
    input: Vec<u8>,
) -> Result<String> {
    let line = format!(in alloc; "msc {command} {file}")?;
    let words = words_of(alloc, line.as_str())?;
    let mut files = Vec::new(alloc);
    files.push((file.to_string(alloc)?, text))?;
    let mut outside = Outside::without_failures(alloc, files, input)?;
    let ending = compiler.call(alloc, words.as_slice(), &mut outside)?;
    let put = str::from_utf8(outside.out.taken_bytes())?;
    let said = str::from_utf8(outside.err.taken_bytes())?;
    Ok(format!(in alloc; "{}\n{put}{said}", ending.outcome)?)
}

/// Runs an example by a command, and says how that ended.
fn run_by<C: Compiler>(
    rt: &HostRuntime,
    compiler: &C,
    command: &str,
    name: &str,
) -> Result<String> {
    let alloc = rt.alloc();
    let file = format!(in alloc; "{name}.c")?;
    let given = format!(in alloc; "{name}.in")?;
    let text = fs::read_to_string(rt, file.as_str()).context("no C file")?;
    let input = fs::read_to_string(rt, given.as_str()).context("no input")?;
    ending(
        alloc,
        compiler,
        command,
        file.as_str(),
        text.into_bytes(),
        input.into_bytes(),
    )
}

/// Runs an example, the file with this name and `.c` on the input with its name and `.in`, by its image as each allocator
/// has it and by its code over virtual registers, and prints how it ended and what it put, or all endings where two differ.
pub fn put_ending<C: Compiler>(rt: &HostRuntime, compiler: &C, name: &str) -> Result<()> {
    let image = run_by(rt, compiler, "run", name)?;
    let in_slots = run_by(rt, compiler, "run --alloc plain", name)?;
    let code = run_by(rt, compiler, "vm", name)?;
    if image.as_str() == in_slots.as_str() && image.as_str() == code.as_str() {
        print!(rt; "{name}: {image}")?;
    } else {
        print!(rt; "{name} by run: {image}{name} in slots: {in_slots}{name} by vm: {code}")?;
    }
    Ok(())
}
