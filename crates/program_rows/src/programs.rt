//! Runs of C programs, lowered to programs over virtual registers.

use crate::generated::generated_text;
use anyhow::{Result, bail, ensure};
use bk_io::memory::{MemSink, MemSource};
use c_lexer::TEXT_LIMIT;
use compiler_front_end::read_unit;
use lowering::lower;
use row_sheets::escape::unescape;
use row_sheets::number::number;
use std::alloc::Global;
use suifvm_ir::program::VmProgram;
use suifvm_run::{VmEnding, run_vm};

/// The most bytes that a run may write.
const ROOM: u64 = 65_536;

/// The turns of a generated text: more than its loop and its calls take.
const GENERATED_TURNS: u64 = 10_000;

/// What a row says.
#[derive(Drop)]
struct Row {
    text: Vec<u8>,
    input: Vec<u8>,
    turns: u64,
}

/// The parts of a row. The lines that are neither the input nor the turns are the text of the program.
fn parts_of(alloc: Global, given: &str) -> Result<Row> {
    let mut row = Row {
        text: Vec::new(alloc),
        input: Vec::new(alloc),
        turns: 0,
    };
    for line in given.lines() {
        let (word, rest) = line.split_once(' ').unwrap_or((line, ""));
        match word {
            "input" => row.input = unescape(alloc, rest)?,
            "turns" => row.turns = number(rest)?,
            _ => {
                row.text.extend_from_slice(line.as_bytes())?;
                row.text.push(b'\n')?;
            }
        }
    }
    Ok(row)
}

/// The program of a text.
fn lowered_program(alloc: Global, text: &[u8]) -> Result<VmProgram> {
    ensure!(text.len() <= TEXT_LIMIT, "a text that is too long");
    match read_unit(alloc, text) {
        Err(fault) => bail!("a text that has no unit within the limits: {fault:?}"),
        Ok(made) => Ok(lower(alloc, &made.typed)?),
    }
}

/// How a run ended. Where it was undefined, the number of the instruction is no part of it.
fn ending(alloc: Global, ending: VmEnding) -> Result<Vec<u8>> {
    let shown = match ending {
        VmEnding::Undefined { .. } => "Undefined\n".to_string(alloc)?,
        _ => format!(in alloc; "{ending:?}\n")?,
    };
    Ok(shown.into_bytes())
}

/// How the program of a row runs.
pub fn answer(alloc: Global, given: &str) -> Result<Vec<u8>> {
    run(alloc, parts_of(alloc, given)?)
}

/// How the program of the text runs that is generated for a seed and a size.
pub fn answer_for_generated(alloc: Global, given: &str) -> Result<Vec<u8>> {
    let row = Row {
        text: generated_text(alloc, given)?,
        input: Vec::new(alloc),
        turns: GENERATED_TURNS,
    };
    run(alloc, row)
}

/// How the program of a text runs on its input within its turns.
fn run(alloc: Global, row: Row) -> Result<Vec<u8>> {
    let Row { text, input, turns } = row;
    let program = lowered_program(alloc, text.as_slice())?;
    let mut input = MemSource::new(input, Vec::new(alloc));
    let mut out = MemSink::new(alloc, ROOM, Vec::new(alloc))?;
    let mut shown = ending(alloc, run_vm(alloc, &program, &mut input, &mut out, turns))?;
    if !out.taken_bytes().is_empty() {
        shown.extend_from_slice(b"out ")?;
        shown.extend_from_slice(out.taken_bytes())?;
        shown.push(b'\n')?;
    }
    Ok(shown)
}
