//! The blocks that may follow a block.

ghost use Rattle.std.specs.Prelude.{◌≡◌, ◌+◌, ◌^◌, ◌<◌, length, Some, IfOk};
ghost use Rattle.pass_core.specs.Functions.{successors_after, successors_of};
ghost use Rattle.cfg.specs.Edges.{successors_from};

use bk_containers::Seq;
use pass_core::Insn;
use pass_core::block::Block;
use std::alloc::{AllocError, Global};

/// The targets of an instruction.
fn target_list<I: Insn>(alloc: Global, insn: &I) -> Result<Seq<u32>, AllocError>
    ensures { IfOk result (λ found. found ≡ I.targets insn.now) }
{
    let mut found = Seq::new(alloc);
    match insn.target_at(0) {
        None => Ok(found),
        Some(block) => {
            found.push(block)?;
            Ok(found)
        }
    }
}

/// The blocks that may follow one with this last instruction.
fn insn_successors<I: Insn>(alloc: Global, insn: &I, number: u32) -> Result<Seq<u32>, AllocError>
    requires { number + 1 < 2 ^ 32 }
    ensures { IfOk result (λ followers. followers ≡ successors_after I.targets I.flows_on number (Some insn.now)) }
{
    let mut followers = target_list(alloc, insn)?;
    if insn.goes_on() {
        followers.push(number + 1)?;
    }
    Ok(followers)
}

/// The blocks that may follow a block with this number.
fn block_successors<I: Insn>(
    alloc: Global,
    block: &Block<I>,
    number: u32,
) -> Result<Seq<u32>, AllocError>
    requires { number + 1 < 2 ^ 32 }
    ensures { IfOk result (λ followers. followers ≡ successors_of I.targets I.flows_on number block.now) }
{
    let insns = &block.insns;
    match insns.last() {
        None => {
            let mut followers = Seq::new(alloc);
            followers.push(number + 1)?;
            Ok(followers)
        }
        Some(id) => insn_successors(alloc, insns.get(id), number),
    }
}

/// The blocks that may follow each block.
pub(crate) fn successor_lists<I: Insn>(
    alloc: Global,
    blocks: &[Block<I>],
) -> Result<Seq<Seq<u32>>, AllocError>
    requires { length blocks.now < 2 ^ 30 }
    ensures { IfOk result (λ lists. lists ≡ successors_from I.targets I.flows_on 0 blocks.now) }
{
    let mut lists = Seq::new(alloc);
    for (number, block) in blocks.iter().enumerate() {
        let followers = block_successors(alloc, block, number as u32)?;
        lists.push(followers)?;
    }
    Ok(lists)
}
