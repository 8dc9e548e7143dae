//! The blocks to which a path leads from block 0.

ghost use Rattle.std.specs.Prelude.{◌≡◌, ◌<◌, ◌^◌, ℕ, true, false, [], ◌∷◌, ◌++◌, length, slice_get, Some, replicate, OnOk, IfOk};
ghost use Rattle.cfg.specs.Paths.{IsReachable};
ghost use Rattle.cfg.specs.model.Search.{search_of, visit, visit_all, is_unmarked};

use bk_containers::Seq;
use std::alloc::{AllocError, Global};

/// Whether a block is there and has no mark.
fn is_unmarked(marks: &[bool], block: u32) -> bool
    ensures { result ≡ is_unmarked (slice_get marks.now block) }
{
    match marks.get(block as usize) {
        None => false,
        Some(mark) => !*mark,
    }
}

/// Marks a block and puts it behind those found before, if it has no mark yet.
fn visit(marks: &mut [bool], found: &mut Seq<u32>, block: u32) -> Result<(), AllocError>
    ensures { OnOk result (search_of marks.new found.new ≡ visit (search_of marks.old found.old) block) }
{
    if !is_unmarked(marks, block) {
        return Ok(());
    }
    marks[block as usize] = true;
    found.push(block)
}

/// Marks blocks and puts those that had no mark behind those found before.
fn visit_all(marks: &mut [bool], found: &mut Seq<u32>, blocks: &[u32]) -> Result<(), AllocError>
    ensures { OnOk result (search_of marks.new found.new ≡ visit_all (search_of marks.old found.old) blocks.now) }
{
    for block in blocks {
        visit(marks, found, *block)?;
    }
    Ok(())
}

/// So many marks, none of which is set.
fn no_marks(alloc: Global, count: usize) -> Result<Vec<bool>, AllocError>
    ensures { IfOk result (λ marks. marks.items ≡ replicate count false) }
{
    let mut marks = Vec::new(alloc);
    marks.resize(count, false)?;
    Ok(marks)
}

/// Marks the blocks to which a path leads from block 0, where these are the blocks that may follow each.
fn search(marks: &mut [bool], alloc: Global, followers: &[Seq<u32>]) -> Result<(), AllocError>
    requires many { length followers.now < 2 ^ 32 }
    requires none { marks.old ≡ replicate (length followers.now) false }
    ensures count { length marks.new ≡ length marks.old }
    ensures only { OnOk result ((block : ℕ) → slice_get marks.new block ≡ Some true → IsReachable followers.now block) }
    ensures all { OnOk result ((block : ℕ) → block < length followers.now → IsReachable followers.now block →
        slice_get marks.new block ≡ Some true) }
{
    let mut found = Seq::new(alloc);
    visit(marks, &mut found, 0)?;
    for at in 0..followers.len() {
        if at >= found.len() {
            return Ok(());
        }
        let block = found.as_slice()[at];
        visit_all(marks, &mut found, followers[block as usize].as_slice())?;
    }
    Ok(())
}

/// For each block whether a path leads to it from block 0, where these are the blocks that may follow each.
pub(crate) fn reached_marks(alloc: Global, followers: &[Seq<u32>]) -> Result<Vec<bool>, AllocError>
    requires { length followers.now < 2 ^ 32 }
    ensures count { IfOk result (λ marks. length marks.items ≡ length followers.now) }
    ensures only { IfOk result (λ marks.
        (block : ℕ) → slice_get marks.items block ≡ Some true → IsReachable followers.now block) }
    ensures all { IfOk result (λ marks. (block : ℕ) → block < length followers.now → IsReachable followers.now block →
        slice_get marks.items block ≡ Some true) }
{
    let mut marks = no_marks(alloc, followers.len())?;
    search(marks.as_mut_slice(), alloc, followers)?;
    Ok(marks)
}
