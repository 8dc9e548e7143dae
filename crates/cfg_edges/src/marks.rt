//! The blocks whose edges are split, and the numbers that all blocks get.

ghost use Rattle.std.specs.Prelude.{◌≡◌, ◌<◌, ◌^◌, length, map, IfOk};
ghost use Rattle.std.specs.List.{list_any};
ghost use Rattle.cfg_edges.specs.model.Split.{is_join, is_split, places, numbers_from};

use bk_containers::Seq;
use cfg::Graph;
use std::alloc::{AllocError, Global};

/// Whether a block has two predecessors or more.
fn is_join(sources: &[Seq<u32>], block: u32) -> bool
    ensures { result ≡ is_join sources.now block }
{
    match sources.get(block as usize) {
        None => false,
        Some(list) => list.len() > 1,
    }
}

/// Whether one of these blocks has two predecessors or more.
fn any_join(sources: &[Seq<u32>], blocks: &[u32]) -> bool
    ensures { result ≡ list_any (is_join sources.now) blocks.now }
{
    for block in blocks {
        if is_join(sources, *block) {
            return true;
        }
    }
    false
}

/// Whether a block with these followers is split.
fn is_split(sources: &[Seq<u32>], followers: &[u32]) -> bool
    ensures { result ≡ is_split sources.now followers.now }
{
    followers.len() > 1 && any_join(sources, followers)
}

/// For each block whether it is split.
pub(crate) fn splits_of(alloc: Global, graph: &Graph) -> Result<Vec<bool>, AllocError>
    ensures { IfOk result (λ splits. splits.items ≡ map (is_split graph.now.pred) graph.now.succ) }
{
    let mut splits = Vec::new(alloc);
    for followers in graph.succ.as_slice() {
        splits.push(is_split(graph.pred.as_slice(), followers.as_slice()))?;
    }
    Ok(splits)
}

/// How many blocks come in a block's place.
fn places(split: bool) -> u32
    ensures { result ≡ places split }
{
    if split { 3 } else { 1 }
}

/// The new number of each block, and that of the end behind them.
pub(crate) fn numbers_of(alloc: Global, splits: &[bool]) -> Result<Vec<u32>, AllocError>
    requires { length splits.now < 2 ^ 30 }
    ensures { IfOk result (λ numbers. numbers.items ≡ numbers_from 0 splits.now) }
{
    let mut numbers = Vec::new(alloc);
    let mut next = 0;
    for split in splits {
        numbers.push(next)?;
        next += places(*split);
    }
    numbers.push(next)?;
    Ok(numbers)
}
