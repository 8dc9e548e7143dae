//! The page `docs/second-chance.md`: what the default allocator does with a function that has more values than there
//! are registers.

use crate::calls::{CFile, output_text};
use crate::events::put_events;
use crate::lines::{function_lines, instruction_lines, put_lines};
use crate::scans::{
    ALLOCATIONS, FILE, FUNCTION, IN_SLOTS, INSTRUCTIONS, JOURNAL, LIFETIMES, OPENING, STEPS,
};
use crate::section::{Section, put_head};
use crate::steps::steps_of;
use crate::transfers::{count_of, put_transfers, transfer_rows};
use anyhow::Result;
use row_calls::Compiler;
use std::alloc::{AllocError, Global};

/// What stands of the function in what a call puts.
fn lines_of<C: Compiler>(
    alloc: Global,
    compiler: &C,
    call: &str,
    file: &CFile<'_>,
) -> Result<Vec<String>> {
    let shown = output_text(alloc, compiler, call, file)?;
    Ok(function_lines(alloc, shown.as_str(), FUNCTION)?)
}

/// Those lines of what is live that say something: of each block, and of each temporary that is wanted somewhere.
fn lines_with_parts(alloc: Global, lines: &[String]) -> Result<Vec<String>, AllocError> {
    let mut found = Vec::new(alloc);
    for line in lines {
        if line.as_str().contains(' ') {
            found.push(line.as_str().to_string(alloc)?)?;
        }
    }
    Ok(found)
}

/// Writes a section with these lines.
fn put_section(rt: &HostRuntime, section: &Section, lines: &[String]) -> Result<()> {
    put_head(rt, section)?;
    put_lines(rt, lines)?;
    println!(rt; "```")?;
    Ok(())
}

/// Writes the section of the instructions, and gives these.
fn show_instructions<C: Compiler>(
    rt: &HostRuntime,
    compiler: &C,
    file: &CFile<'_>,
) -> Result<Vec<String>> {
    let alloc = rt.alloc();
    let lines = lines_of(alloc, compiler, INSTRUCTIONS.call, file)?;
    put_section(rt, &INSTRUCTIONS, lines.as_slice())?;
    Ok(instruction_lines(alloc, lines.as_slice())?)
}

/// Writes the section of the lifetimes.
fn show_lifetimes<C: Compiler>(rt: &HostRuntime, compiler: &C, file: &CFile<'_>) -> Result<()> {
    let alloc = rt.alloc();
    let lines = lines_of(alloc, compiler, LIFETIMES.call, file)?;
    let shown = lines_with_parts(alloc, lines.as_slice())?;
    put_section(rt, &LIFETIMES, shown.as_slice())
}

/// Writes the section of the journal.
fn show_journal<C: Compiler>(
    rt: &HostRuntime,
    compiler: &C,
    file: &CFile<'_>,
    instructions: &[String],
) -> Result<()> {
    let lines = lines_of(rt.alloc(), compiler, JOURNAL.call, file)?;
    put_head(rt, &JOURNAL)?;
    put_events(rt, lines.as_slice(), instructions)?;
    println!(rt; "```")?;
    Ok(())
}

/// The words that transfers begin with.
const TRANSFERS: [&str; 3] = ["store", "load", "move"];

/// Writes how many lines of each of two allocations begin with a word.
fn put_counts(rt: &HostRuntime, word: &str, scanned: &[String], plain: &[String]) -> Result<()> {
    let by_scan = count_of(scanned, word);
    let in_slots = count_of(plain, word);
    println!(rt; "{word:<12}{by_scan:<12}{in_slots}")?;
    Ok(())
}

/// Writes the sections of the two allocations, and of what they cost.
fn show_allocations<C: Compiler>(
    rt: &HostRuntime,
    compiler: &C,
    file: &CFile<'_>,
    instructions: &[String],
) -> Result<()> {
    let alloc = rt.alloc();
    let scanned = lines_of(alloc, compiler, ALLOCATIONS.call, file)?;
    let plain = lines_of(alloc, compiler, IN_SLOTS, file)?;
    put_head(rt, &ALLOCATIONS)?;
    let by_scan = transfer_rows(alloc, scanned.as_slice())?;
    let in_slots = transfer_rows(alloc, plain.as_slice())?;
    put_transfers(rt, instructions, by_scan.as_slice(), in_slots.as_slice())?;
    println!(rt; "```")?;
    put_head(rt, &STEPS)?;
    println!(rt; "            binpack     plain")?;
    for word in TRANSFERS {
        put_counts(rt, word, scanned.as_slice(), plain.as_slice())?;
    }
    let by_scan = steps_of(alloc, compiler, "binpack", file)?;
    let in_slots = steps_of(alloc, compiler, "plain", file)?;
    println!(rt; "steps       {by_scan:<12}{in_slots}\n```")?;
    Ok(())
}

/// Writes the page about a program with this text, by calls of the compiler. It fails where a call does not write what
/// it was asked for.
pub fn put_second_chances<C: Compiler>(rt: &HostRuntime, compiler: &C, text: &str) -> Result<()> {
    let file = CFile { name: FILE, text };
    println!(rt; "{OPENING}\n\n```c\n{text}```")?;
    let instructions = show_instructions(rt, compiler, &file)?;
    show_lifetimes(rt, compiler, &file)?;
    show_journal(rt, compiler, &file, instructions.as_slice())?;
    show_allocations(rt, compiler, &file, instructions.as_slice())
}
