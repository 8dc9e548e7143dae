//! Runs of a machine, some steps at a time.

use alpha_isa::image::Image;
use alpha_isa::limits::{MOST_BYTES, MOST_WORDS};
use alpha_run::machine::Machine;
use anyhow::{Context, Result, bail, ensure};
use bk_io::memory::{MemSink, MemSource};
use row_sheets::escape::unescape;
use row_sheets::number::{number, numbers, word};
use std::alloc::Global;

/// The image of words, data and an entry.
pub fn image_of(words: Vec<u32>, bytes: Vec<u8>, entry: u32) -> Result<Image> {
    image_with_zeros(words, bytes, 0, entry)
}

/// The image of words, data with zeros behind it, and an entry.
fn image_with_zeros(words: Vec<u32>, bytes: Vec<u8>, zeros: u32, entry: u32) -> Result<Image> {
    ensure!(!words.is_empty(), "an image has a word");
    ensure!(words.len() <= MOST_WORDS as usize, "too many words");
    ensure!(bytes.len() <= MOST_BYTES as usize, "too many bytes");
    ensure!(
        bytes.len() + (zeros as usize) <= MOST_BYTES as usize,
        "too many zeros"
    );
    ensure!((entry as usize) < words.len(), "the entry is no word");
    Ok(Image {
        words,
        bytes,
        zeros,
        entry,
    })
}

/// What a row says of a run.
#[derive(Drop)]
struct Run {
    words: Vec<u32>,
    data: Vec<u8>,
    zeros: u32,
    entry: u32,
    input: Vec<u8>,
    failing_inputs: Vec<u64>,
    failing_puts: Vec<u64>,
    room: u64,
    budgets: Vec<u64>,
}

impl Run {
    fn new(alloc: Global) -> Run {
        Run {
            words: Vec::new(alloc),
            data: Vec::new(alloc),
            zeros: 0,
            entry: 0,
            input: Vec::new(alloc),
            failing_inputs: Vec::new(alloc),
            failing_puts: Vec::new(alloc),
            room: 4096,
            budgets: Vec::new(alloc),
        }
    }

    /// Reads a line.
    fn take(&mut self, alloc: Global, line: &str) -> Result<()> {
        let (name, rest) = line.split_once(' ').context("a line has a word in front")?;
        match name {
            "words" => {
                for part in rest.split(' ') {
                    self.words.push(word(part)?)?;
                }
            }
            "data" => self.data = unescape(alloc, rest)?,
            "zeros" => self.zeros = u32::try_from(number(rest)?)?,
            "entry" => self.entry = word(rest)?,
            "input" => self.input = unescape(alloc, rest)?,
            "failing-inputs" => self.failing_inputs = numbers(alloc, rest)?,
            "failing-puts" => self.failing_puts = numbers(alloc, rest)?,
            "room" => self.room = number(rest)?,
            "run" => self.budgets = numbers(alloc, rest)?,
            _ => bail!("no part of a run: {name:?}"),
        }
        Ok(())
    }

    /// How the machine stands after each budget, and what was put.
    fn answer(self, alloc: Global) -> Result<Vec<u8>> {
        let Run {
            words,
            data,
            zeros,
            entry,
            input,
            failing_inputs,
            failing_puts,
            room,
            budgets,
        } = self;
        let image = image_with_zeros(words, data, zeros, entry)?;
        let mut machine = Machine::load(alloc, &image, 4096)?;
        let mut input = MemSource::new(input, failing_inputs);
        let mut out = MemSink::new(alloc, room, failing_puts)?;
        let mut shown = String::new(alloc);
        for budget in &budgets {
            let ending = machine.run(*budget, &mut input, &mut out);
            let steps = machine.steps();
            let written = machine.written();
            shown.push_str(&format!(in alloc; "{ending:?}, steps {steps}, written {written}\n")?)?;
        }
        shown.push_str("out ")?;
        let mut shown = shown.into_bytes();
        shown.extend_from_slice(out.taken_bytes())?;
        shown.push(b'\n')?;
        Ok(shown)
    }
}

/// What comes for the lines of a row.
pub fn answer(alloc: Global, given: &str) -> Result<Vec<u8>> {
    let mut run = Run::new(alloc);
    for line in given.lines() {
        run.take(alloc, line)?;
    }
    run.answer(alloc)
}
