//! What allocations do before the instructions of a function.

use crate::lines::is_instruction;
use anyhow::{Context, Result};
use std::alloc::{AllocError, Global};

/// Whether a line is a transfer.
fn is_transfer(line: &str) -> bool {
    line.starts_with("store ") || line.starts_with("load ") || line.starts_with("move ")
}

/// Puts a line behind others, with a comma between.
fn put_line(row: &mut String, line: &str) -> Result<(), AllocError> {
    if !row.is_empty() {
        row.push_str(", ")?;
    }
    row.push_str(line)
}

/// For each instruction in the lines of an allocation, the transfers in front of it in a row.
pub fn transfer_rows(alloc: Global, lines: &[String]) -> Result<Vec<String>, AllocError> {
    let mut row = String::new(alloc);
    let mut rows = Vec::new(alloc);
    for line in lines {
        let line = line.as_str();
        if is_instruction(line) {
            rows.push(row.clone()?)?;
            row.clear();
        } else if is_transfer(line) {
            put_line(&mut row, line)?;
        }
    }
    Ok(rows)
}

/// How many of some lines begin with a word.
pub fn count_of(lines: &[String], word: &str) -> usize {
    let mut count = 0usize;
    for line in lines {
        if line.as_str().starts_with(word) {
            count = count.saturating_add(1);
        }
    }
    count
}

/// Writes a row: the instruction over temporaries, and what each of two allocations does before it.
fn put_row(rt: &HostRuntime, instruction: &str, scanned: &str, plain: &str) -> Result<()> {
    if !plain.is_empty() {
        println!(rt; "{instruction:<26}{scanned:<34}{plain}")?;
    } else if !scanned.is_empty() {
        println!(rt; "{instruction:<26}{scanned}")?;
    } else {
        println!(rt; "{instruction}")?;
    }
    Ok(())
}

/// What stands above the rows.
const COLUMNS: &str = "temporaries               binpack                           plain";

/// Writes the instructions of a function, each with what two allocations do before it.
pub fn put_transfers(
    rt: &HostRuntime,
    instructions: &[String],
    scanned: &[String],
    plain: &[String],
) -> Result<()> {
    println!(rt; "{COLUMNS}")?;
    let mut by_scan = scanned.iter();
    let mut in_slots = plain.iter();
    for instruction in instructions {
        let scanned = by_scan.next().context("too few instructions")?;
        let plain = in_slots.next().context("too few instructions")?;
        put_row(rt, instruction.as_str(), scanned.as_str(), plain.as_str())?;
    }
    Ok(())
}
