//! The steps of runs.

use crate::calls::{CFile, outcome};
use anyhow::{Result, ensure};
use row_calls::Compiler;
use std::alloc::Global;

/// By how much the number of steps is raised that is tried next. All together, with one more, are the most steps that a
/// run may take here.
const RAISES: [u64; 16] = [
    32_768, 16_384, 8_192, 4_096, 2_048, 1_024, 512, 256, 128, 64, 32, 16, 8, 4, 2, 1,
];

/// Whether a run of a file, as an allocator makes it, ends within so many steps.
fn ends_within<C: Compiler>(
    alloc: Global,
    compiler: &C,
    allocator: &str,
    file: &CFile<'_>,
    steps: u64,
) -> Result<bool> {
    let name = file.name;
    let call = format!(in alloc; "msc run {name} --alloc {allocator} --budget {steps}")?;
    let ending = outcome(alloc, compiler, call.as_str(), file)?;
    Ok(ending.as_str().starts_with("Ran"))
}

/// The steps that a run of a file takes, as an allocator makes it: the least number within which it ends.
pub fn steps_of<C: Compiler>(
    alloc: Global,
    compiler: &C,
    allocator: &str,
    file: &CFile<'_>,
) -> Result<u64> {
    let mut too_few = 0u64;
    for raise in RAISES {
        let tried = too_few.saturating_add(raise);
        if !ends_within(alloc, compiler, allocator, file, tried)? {
            too_few = tried;
        }
    }
    let steps = too_few.saturating_add(1);
    ensure!(
        ends_within(alloc, compiler, allocator, file, steps)?,
        "a run takes more than {steps} steps"
    );
    Ok(steps)
}
