//! Calls that are read from the lines of rows.

use crate::compiler::{Compiler, Ending, Outside, output_of, words_of};
use crate::part::push_part;
use anyhow::{Context, Result, bail, ensure};
use bk_io::memory::{MemFiles, MemSource};
use bk_io::outside::Source;
use row_sheets::escape::unescape;
use row_sheets::number::numbers;
use std::alloc::{AllocError, Global};

/// What is due of the output.
#[derive(Drop)]
enum DueOutput {
    /// It is shown, and so due as the row has it.
    Shown,
    /// It is a front of these bytes.
    FrontOf(Vec<u8>),
    /// It is these bytes.
    SameAs(Vec<u8>),
}

impl DueOutput {
    /// Shows the output, or tests it.
    fn judge(&self, taken: &[u8], shown: &mut Vec<u8>) -> Result<()> {
        match self {
            DueOutput::Shown => push_part(shown, "out", taken)?,
            DueOutput::FrontOf(bytes) => ensure!(
                bytes.starts_with(taken),
                "no front of these bytes"
            ),
            DueOutput::SameAs(bytes) => ensure!(bytes.as_slice() == taken, "other bytes"),
        }
        Ok(())
    }
}

/// What fails in turn, each time in a call of its own.
#[derive(Clone, Copy)]
enum EachFailing {
    Nothing,
    /// Each put of the bytes that are due of the output.
    Put,
    /// Each call of the input, with the one that finds its end.
    Input,
}

/// The words of a call and its outside.
#[derive(Drop)]
struct Call {
    words: Vec<String>,
    files: Vec<(String, Vec<u8>)>,
    input: Vec<u8>,
    failing_reads: Vec<u64>,
    failing_inputs: Vec<u64>,
    failing_puts: Vec<u64>,
    failing_lines: Vec<u64>,
    due_output: DueOutput,
    each_failing: EachFailing,
}

impl Call {
    fn new(alloc: Global) -> Call {
        Call {
            words: Vec::new(alloc),
            files: Vec::new(alloc),
            input: Vec::new(alloc),
            failing_reads: Vec::new(alloc),
            failing_inputs: Vec::new(alloc),
            failing_puts: Vec::new(alloc),
            failing_lines: Vec::new(alloc),
            due_output: DueOutput::Shown,
            each_failing: EachFailing::Nothing,
        }
    }

    /// Puts a line behind the last file.
    fn push_line(&mut self, alloc: Global, line: &str) -> Result<()> {
        let mut bytes = unescape(alloc, line)?;
        bytes.push(b'\n')?;
        let file = self.files.last_mut().context("a line without a file")?;
        file.1.append(&mut bytes)?;
        Ok(())
    }

    /// Adds a file, with the bytes that stand behind its name.
    fn push_file(&mut self, alloc: Global, rest: &str) -> Result<()> {
        let (name, text) = rest.split_once(' ').unwrap_or((rest, ""));
        let file = (name.to_string(alloc)?, unescape(alloc, text)?);
        self.files.push(file)?;
        Ok(())
    }

    /// The bytes of a file.
    fn bytes_of(&self, alloc: Global, name: &str) -> Result<Vec<u8>> {
        let found = self.files.iter().find(|file| file.0.as_str() == name);
        let bytes = &found.context("no such file")?.1;
        Ok(Vec::from_slice(alloc, bytes.as_slice())?)
    }

    /// The files so far once more.
    fn copied_files(&self, alloc: Global) -> Result<Vec<(String, Vec<u8>)>, AllocError> {
        let mut files = Vec::new(alloc);
        for file in self.files.iter() {
            let bytes = Vec::from_slice(alloc, file.1.as_slice())?;
            files.push((file.0.as_str().to_string(alloc)?, bytes))?;
        }
        Ok(files)
    }

    /// Adds a file with what a call writes over the files so far.
    fn push_written<C: Compiler>(&mut self, alloc: Global, compiler: &C, rest: &str) -> Result<()> {
        let (name, line) = rest.split_once(' ').context("a file without its call")?;
        let bytes = output_of(alloc, compiler, line, self.copied_files(alloc)?)?;
        self.files.push((name.to_string(alloc)?, bytes))?;
        Ok(())
    }

    /// Reads a line of a row.
    fn take<C: Compiler>(&mut self, alloc: Global, compiler: &C, line: &str) -> Result<()> {
        if let Some(line) = line.strip_prefix("  ") {
            return self.push_line(alloc, line);
        }
        let (name, rest) = line.split_once(' ').unwrap_or((line, ""));
        match name {
            "file" => self.push_file(alloc, rest)?,
            "written" => self.push_written(alloc, compiler, rest)?,
            "input" => self.input = unescape(alloc, rest)?,
            "failing-reads" => self.failing_reads = numbers(alloc, rest)?,
            "failing-inputs" => self.failing_inputs = numbers(alloc, rest)?,
            "failing-puts" => self.failing_puts = numbers(alloc, rest)?,
            "failing-lines" => self.failing_lines = numbers(alloc, rest)?,
            "front-of" => self.due_output = DueOutput::FrontOf(unescape(alloc, rest)?),
            "each-put-fails" => self.each_failing = EachFailing::Put,
            "each-input-fails" => self.each_failing = EachFailing::Input,
            "same-as" => self.due_output = DueOutput::SameAs(self.bytes_of(alloc, rest)?),
            "msc" => self.words = words_of(alloc, line)?,
            _ => bail!("no part of a call: {name:?}"),
        }
        Ok(())
    }

    /// The same words over the same files and input, of which no call fails yet.
    fn once_more(&self, alloc: Global) -> Result<Call, AllocError> {
        let mut call = Call::new(alloc);
        for word in self.words.iter() {
            call.words.push(word.as_str().to_string(alloc)?)?;
        }
        call.files = self.copied_files(alloc)?;
        call.input = Vec::from_slice(alloc, self.input.as_slice())?;
        Ok(call)
    }

    /// Makes the call.
    fn make<C: Compiler>(self, alloc: Global, compiler: &C) -> Result<Made> {
        let Call {
            words,
            files,
            input,
            failing_reads,
            failing_inputs,
            failing_puts,
            failing_lines,
            due_output,
            each_failing: _,
        } = self;
        let calls = input.len().saturating_add(failing_inputs.len());
        let files = MemFiles::new(files, failing_reads);
        let input = MemSource::new(input, failing_inputs);
        let mut outside = Outside::new(alloc, files, input, failing_puts, failing_lines)?;
        let ending = compiler.call(alloc, words.as_slice(), &mut outside)?;
        let left = rest(alloc, &mut outside.input, calls)?;
        let shown = show(alloc, &ending, &outside, &due_output)?;
        Ok(Made { shown, left })
    }

    /// What all calls come to in which one put fails of the bytes that are due. The bytes before it are taken.
    fn answer_each_put<C: Compiler>(&self, alloc: Global, compiler: &C) -> Result<Vec<u8>> {
        let DueOutput::SameAs(due) = &self.due_output else {
            bail!("no bytes whose puts fail");
        };
        let mut shown = Vec::new(alloc);
        for at in 0..due.len() {
            let mut call = self.once_more(alloc)?;
            call.failing_puts.push(at as u64)?;
            call.due_output = DueOutput::SameAs(Vec::from_slice(alloc, &due[..at])?);
            let made = call.make(alloc, compiler)?;
            ensure!(
                at == 0 || made.shown == shown,
                "another answer where put {at} fails"
            );
            shown = made.shown;
        }
        Ok(shown)
    }

    /// What all calls come to in which one call of the input fails. The bytes before it are taken from the input.
    fn answer_each_input<C: Compiler>(&self, alloc: Global, compiler: &C) -> Result<Vec<u8>> {
        let mut shown = Vec::new(alloc);
        for left in 0..self.input.len().saturating_add(1) {
            let at = self.input.len().saturating_sub(left);
            let mut call = self.once_more(alloc)?;
            call.failing_inputs.push(at as u64)?;
            let made = call.make(alloc, compiler)?;
            ensure!(
                left == 0 || made.shown == shown,
                "another answer where call {at} fails"
            );
            ensure!(
                made.left.len() == left,
                "other bytes are left where call {at} fails"
            );
            ensure!(
                self.input.ends_with(made.left.as_slice()),
                "no bytes of the input are left"
            );
            shown = made.shown;
        }
        Ok(shown)
    }

    /// What the call comes to.
    fn answer<C: Compiler>(self, alloc: Global, compiler: &C) -> Result<Vec<u8>> {
        let mut shown = match self.each_failing {
            EachFailing::Put => self.answer_each_put(alloc, compiler)?,
            EachFailing::Input => self.answer_each_input(alloc, compiler)?,
            EachFailing::Nothing => {
                let mut made = self.make(alloc, compiler)?;
                push_part(&mut made.shown, "left", made.left.as_slice())?;
                made.shown
            }
        };
        shown.push(b'\n')?;
        Ok(shown)
    }
}

/// What a call came to.
#[derive(Drop)]
struct Made {
    /// What is shown of it, but for what is left of the input.
    shown: Vec<u8>,
    /// What is left of the input.
    left: Vec<u8>,
}

/// The outcome and the status of a call, and what the output and the lines for errors took. The output is shown, or
/// tested.
fn show(
    alloc: Global,
    ending: &Ending,
    outside: &Outside,
    due_output: &DueOutput,
) -> Result<Vec<u8>> {
    let outcome = ending.outcome.as_str();
    let mut shown = format!(in alloc; "{outcome}, status {}", ending.status)?.into_bytes();
    due_output.judge(outside.out.taken_bytes(), &mut shown)?;
    push_part(&mut shown, "err", outside.err.taken_bytes())?;
    Ok(shown)
}

/// The bytes that come from a source by so many calls.
fn rest(alloc: Global, input: &mut MemSource, calls: usize) -> Result<Vec<u8>, AllocError> {
    let mut bytes = Vec::new(alloc);
    for _ in 0..calls {
        if let Ok(Some(byte)) = input.next() {
            bytes.push(byte)?;
        }
    }
    Ok(bytes)
}

/// What comes for the lines of a row, of which each says a part of the call: the outcome and the status, what the
/// output and the lines for errors took, and what is left of the input.
pub fn answer<C: Compiler>(alloc: Global, compiler: &C, given: &str) -> Result<Vec<u8>> {
    let mut call = Call::new(alloc);
    for line in given.lines() {
        call.take(alloc, compiler, line)?;
    }
    call.answer(alloc, compiler)
}

/// What comes for a call with the words of a line over one file with this text, without input.
pub fn answer_for_text<C: Compiler>(
    alloc: Global,
    compiler: &C,
    line: &str,
    name: &str,
    text: &str,
) -> Result<Vec<u8>> {
    let mut call = Call::new(alloc);
    let file = (name.to_string(alloc)?, unescape(alloc, text)?);
    call.files.push(file)?;
    call.words = words_of(alloc, line)?;
    call.answer(alloc, compiler)
}
