//! What calls are given to, and the outside that they have.

use anyhow::{Result, bail};
use bk_io::memory::{MemFiles, MemSink, MemSource};
use std::alloc::{AllocError, Global};

/// How many bytes the output and the lines for errors take.
const ROOM: u64 = 1 << 20;

/// The files, the input, the output and the lines for errors of a call, in memory.
#[derive(Drop)]
pub struct Outside {
    pub files: MemFiles,
    pub input: MemSource,
    pub out: MemSink,
    pub err: MemSink,
}

impl Outside {
    /// An outside with these files, each a name and its bytes, and this input, where the calls of the output and of the
    /// lines for errors with these numbers, counted from 0, fail.
    pub fn new(
        alloc: Global,
        files: MemFiles,
        input: MemSource,
        failing_puts: Vec<u64>,
        failing_lines: Vec<u64>,
    ) -> Result<Outside, AllocError> {
        Ok(Outside {
            files,
            input,
            out: MemSink::new(alloc, ROOM, failing_puts)?,
            err: MemSink::new(alloc, ROOM, failing_lines)?,
        })
    }

    /// An outside with these files and this input, of which no call fails.
    pub fn without_failures(
        alloc: Global,
        files: Vec<(String, Vec<u8>)>,
        input: Vec<u8>,
    ) -> Result<Outside, AllocError> {
        let files = MemFiles::new(files, Vec::new(alloc));
        let input = MemSource::new(input, Vec::new(alloc));
        Outside::new(alloc, files, input, Vec::new(alloc), Vec::new(alloc))
    }
}

/// How a call ended.
#[derive(Drop)]
pub struct Ending {
    /// Its outcome, as it is shown.
    pub outcome: String,
    /// Its exit status.
    pub status: u8,
    /// Whether it wrote what it was asked for.
    pub has_written: bool,
}

/// A compiler that calls are given to.
pub trait Compiler {
    /// Calls the compiler with these words. It fails where there is no memory to tell the ending.
    fn call(&self, alloc: Global, words: &[String], outside: &mut Outside) -> Result<Ending>;
}

/// The words of a line, between its spaces.
pub fn words_of(alloc: Global, line: &str) -> Result<Vec<String>, AllocError> {
    let mut words = Vec::new(alloc);
    for word in line.split(' ') {
        words.push(word.to_string(alloc)?)?;
    }
    Ok(words)
}

/// The outcome of a call with the words of a line over these files, without input.
pub fn outcome_of<C: Compiler>(
    alloc: Global,
    compiler: &C,
    line: &str,
    files: Vec<(String, Vec<u8>)>,
) -> Result<String> {
    let words = words_of(alloc, line)?;
    let mut outside = Outside::without_failures(alloc, files, Vec::new(alloc))?;
    let Ending { outcome, .. } = compiler.call(alloc, words.as_slice(), &mut outside)?;
    Ok(outcome)
}

/// What a call with the words of a line writes over these files. It fails where the call does not write what it was
/// asked for.
pub fn output_of<C: Compiler>(
    alloc: Global,
    compiler: &C,
    line: &str,
    files: Vec<(String, Vec<u8>)>,
) -> Result<Vec<u8>> {
    let words = words_of(alloc, line)?;
    let mut outside = Outside::without_failures(alloc, files, Vec::new(alloc))?;
    let ending = compiler.call(alloc, words.as_slice(), &mut outside)?;
    if !ending.has_written {
        bail!("{line}: {}", ending.outcome);
    }
    Ok(Vec::from_slice(alloc, outside.out.taken_bytes())?)
}
