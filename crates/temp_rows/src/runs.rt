//! Runs of programs over temporaries, in the slots of `plain`, where a scan puts them, and where the row does.

use crate::placements::plain_of;
use crate::scanned::scanned;
use alloc_model::allocation::Allocation;
use anyhow::{Result, ensure};
use row_sheets::escape::unescape;
use row_sheets::number::number;
use row_temp_machine::machine::TempMachine;
use row_temp_texts::reader::{Placement, TempReader, allocation};
use std::alloc::Global;

/// What a row says of a run besides its program.
#[derive(Drop)]
struct Outside {
    input: Vec<u8>,
    turns: u64,
}

/// What the lines of a row say of its run.
fn outside_of(alloc: Global, given: &str) -> Result<Outside> {
    let mut outside = Outside {
        input: Vec::new(alloc),
        turns: 1000,
    };
    for line in given.lines() {
        match line.split_once(' ') {
            Some(("input", bytes)) => outside.input = unescape(alloc, bytes)?,
            Some(("turns", count)) => outside.turns = number(count)?,
            _ => {}
        }
    }
    Ok(outside)
}

/// The line of a run.
pub fn put_run(
    shown: &mut Vec<u8>,
    alloc: Global,
    name: &str,
    functions: &[Allocation],
    is_placed: bool,
    given: &str,
) -> Result<()> {
    let outside = outside_of(alloc, given)?;
    let mut machine = TempMachine::new(
        alloc,
        functions,
        &[],
        is_placed,
        outside.input,
        outside.turns,
    )?;
    let ending = machine.run()?;
    let line = format!(in alloc; "{name} {ending:?}")?;
    shown.extend_from_slice(line.as_bytes())?;
    if !machine.output.is_empty() {
        shown.extend_from_slice(b" out ")?;
        shown.extend_from_slice(machine.output.as_slice())?;
    }
    shown.push(b'\n')?;
    Ok(())
}

/// How a program runs over temporaries, over the slots of `plain`, where a scan puts them, and, where the row has a
/// placement, over that.
pub fn answer(alloc: Global, given: &str) -> Result<Vec<u8>> {
    let TempReader {
        functions,
        placements,
        ..
    } = TempReader::of(alloc, given)?;
    let mut plain = Vec::new(alloc);
    let mut scans = Vec::new(alloc);
    for function in &functions {
        plain.push(plain_of(alloc, function)?)?;
        scans.push(scanned(alloc, function)?)?;
    }
    let mut shown = Vec::new(alloc);
    put_run(
        &mut shown,
        alloc,
        "temporaries",
        plain.as_slice(),
        false,
        given,
    )?;
    put_run(&mut shown, alloc, "slots", plain.as_slice(), true, given)?;
    put_run(
        &mut shown,
        alloc,
        "registers",
        scans.as_slice(),
        true,
        given,
    )?;
    let is_given = placements
        .iter()
        .any(|placement: &Placement| placement.is_given);
    if is_given {
        let mut placed = Vec::new(alloc);
        for (placement, function) in placements.into_iter().zip(functions.iter()) {
            ensure!(placement.is_given, "a function has no placement");
            placed.push(allocation(alloc, function, placement)?)?;
        }
        put_run(
            &mut shown,
            alloc,
            "placement",
            placed.as_slice(),
            true,
            given,
        )?;
    }
    Ok(shown)
}
