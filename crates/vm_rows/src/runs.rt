//! Runs of programs over virtual registers.

use crate::temporaries::{Run, differences};
use anyhow::Result;
use bk_io::memory::{MemSink, MemSource};
use row_sheets::escape::unescape;
use row_sheets::number::{number, numbers};
use row_vm_texts::reader::VmReader;
use row_vm_texts::text::{ROOM, check_text, names_of};
use std::alloc::Global;
use suifvm_run::{VmEnding, run_vm};

/// What a row says of a run besides its program.
#[derive(Drop)]
struct Outside {
    input: Vec<u8>,
    failing_inputs: Vec<u64>,
    failing_puts: Vec<u64>,
    turns: u64,
}

impl Outside {
    /// Reads a line. Answers whether it is one of these.
    fn take(&mut self, alloc: Global, word: &str, rest: &str) -> Result<bool> {
        match word {
            "input" => self.input = unescape(alloc, rest)?,
            "failing-inputs" => self.failing_inputs = numbers(alloc, rest)?,
            "failing-puts" => self.failing_puts = numbers(alloc, rest)?,
            "turns" => self.turns = number(rest)?,
            _ => return Ok(false),
        }
        Ok(true)
    }
}

/// Whether a run came to an end of the program, with no fault outside it.
fn is_ended(ending: &VmEnding) -> bool {
    matches!(
        ending,
        VmEnding::Ended { .. } | VmEnding::Trapped { .. } | VmEnding::Budget { .. }
    )
}

/// How the program of a row runs, and where the program that is selected for it ends in another way.
pub fn answer(alloc: Global, given: &str) -> Result<Vec<u8>> {
    let mut outside = Outside {
        input: Vec::new(alloc),
        failing_inputs: Vec::new(alloc),
        failing_puts: Vec::new(alloc),
        turns: 1000,
    };
    let mut reader = VmReader::new(alloc, names_of(alloc, given)?);
    for line in given.lines() {
        let (word, rest) = line.split_once(' ').unwrap_or((line, ""));
        if !outside.take(alloc, word, rest)? {
            reader.take(line)?;
        }
    }
    let program = reader.program()?;
    check_text(alloc, &program, given)?;
    let taken = Vec::from_slice(alloc, outside.input.as_slice())?;
    let mut input = MemSource::new(taken, outside.failing_inputs);
    let mut out = MemSink::new(alloc, ROOM, outside.failing_puts)?;
    let ending = run_vm(alloc, &program, &mut input, &mut out, outside.turns);
    let mut shown = format!(in alloc; "{ending:?}\n")?.into_bytes();
    if !out.taken_bytes().is_empty() {
        shown.extend_from_slice(b"out ")?;
        shown.extend_from_slice(out.taken_bytes())?;
        shown.push(b'\n')?;
    }
    if is_ended(&ending) {
        let run = Run {
            input: outside.input.as_slice(),
            turns: outside.turns,
            ending,
            output: out.taken_bytes(),
        };
        shown.extend_from_slice(differences(alloc, &program, &run)?.as_slice())?;
    }
    Ok(shown)
}
