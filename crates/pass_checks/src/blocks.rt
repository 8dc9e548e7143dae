//! What is asked of the blocks of a function.
#![tactic(auto, using(crate::proofs::Alls::all_more, crate::proofs::Alls::all_done))]

ghost use Rattle.std.specs.Prelude.{◌≡◌, ◌<◌, ◌^◌, All, IsTrue, IfSome, IfOk};
ghost use Rattle.std.specs.Bool.{OnTrue};
ghost use Rattle.pass_core.specs.Functions.{AllInsns, GoesToBlocks, UsesRegisters, EndsLate, stops, count_of};
ghost use Rattle.pass_checks.specs.model.Body.{IsBody};

use crate::insns::{goes_to_blocks, is_straight, uses_registers};
use bk_containers::Seq;
use pass_core::Insn;
use pass_core::block::Block;
use pass_core::function::COUNT_LIMIT;
use std::alloc::{AllocError, Global};

/// Whether each block that instructions go to is one of so many, and not the entry.
fn go_to_blocks<I: Insn>(insns: &[I], blocks: usize) -> bool
    ensures { OnTrue result (All (GoesToBlocks I.targets blocks) insns.now) }
{
    for insn in insns {
        if !goes_to_blocks(insn, blocks) {
            return false;
        }
    }
    true
}

/// Whether each register that instructions name is one of so many.
fn use_registers<I: Insn>(insns: &[I], registers: u32) -> bool
    ensures { OnTrue result (All (UsesRegisters I.reads I.writes registers) insns.now) }
{
    for insn in insns {
        if !uses_registers(insn, registers) {
            return false;
        }
    }
    true
}

/// Whether only the last of the instructions may go elsewhere.
fn ends_late<I: Insn>(insns: &[I]) -> bool
    ensures { OnTrue result (EndsLate I.targets I.flows_on insns.now) }
{
    let Some((_last, front)) = insns.split_last() else {
        return true;
    };
    for insn in front {
        if !is_straight(insn) {
            return false;
        }
    }
    true
}

/// Whether each block that the instructions of blocks go to is one of so many, and not the entry.
fn all_go_to_blocks<I: Insn>(lists: &[Seq<I>], blocks: usize) -> bool
    ensures { OnTrue result (AllInsns (GoesToBlocks I.targets blocks) lists.now) }
{
    for insns in lists {
        if !go_to_blocks(insns.as_slice(), blocks) {
            return false;
        }
    }
    true
}

/// Whether each register that the instructions of blocks name is one of so many.
fn all_use_registers<I: Insn>(lists: &[Seq<I>], registers: u32) -> bool
    ensures { OnTrue result (AllInsns (UsesRegisters I.reads I.writes registers) lists.now) }
{
    for insns in lists {
        if !use_registers(insns.as_slice(), registers) {
            return false;
        }
    }
    true
}

/// Whether only the last instruction of each block may go elsewhere.
fn all_end_late<I: Insn>(lists: &[Seq<I>]) -> bool
    ensures { OnTrue result (All (EndsLate I.targets I.flows_on) lists.now) }
{
    for insns in lists {
        if !ends_late(insns.as_slice()) {
            return false;
        }
    }
    true
}

/// The number of instructions of blocks, where they are few enough for a function.
fn count_insns<I: Insn>(blocks: &[Seq<I>]) -> Option<u32>
    ensures { IfSome result (λ count. (count ≡ count_of blocks.now) × (count < 2 ^ 30)) }
{
    let mut count = 0u32;
    for block in blocks {
        if block.len() >= COUNT_LIMIT {
            return None;
        }
        count += block.len() as u32;
        if count as usize >= COUNT_LIMIT {
            return None;
        }
    }
    Some(count)
}

/// Whether the last block ends with a jump or a return.
fn stop<I: Insn>(blocks: &[Seq<I>]) -> bool
    ensures { OnTrue result (IsTrue (stops I.flows_on blocks.now)) }
{
    let Some(block) = blocks.last() else {
        return false;
    };
    let Some(insn) = block.as_slice().last() else {
        return false;
    };
    !insn.goes_on()
}

/// The block of these instructions.
pub(crate) fn block_of<I: Insn>(alloc: Global, insns: Seq<I>) -> Result<Block<I>, AllocError>
    ensures { IfOk result (λ block. block ≡ insns) }
{
    let mut block = Block::new(alloc);
    for insn in Seq::into_vec(insns) {
        block.push(insn)?;
    }
    Ok(block)
}

/// The blocks of these instructions.
pub(crate) fn blocks_of<I: Insn>(
    alloc: Global,
    lists: Vec<Seq<I>>,
) -> Result<Seq<Block<I>>, AllocError>
    ensures { IfOk result (λ blocks. blocks ≡ lists.items) }
{
    let mut blocks = Seq::new(alloc);
    for insns in lists {
        blocks.push(block_of(alloc, insns)?)?;
    }
    Ok(blocks)
}

/// Whether these are the blocks of a function with so many registers.
pub(crate) fn is_body<I: Insn>(lists: &[Seq<I>], registers: u32) -> bool
    ensures { OnTrue result (IsBody I.reads I.writes I.targets I.flows_on registers lists.now) }
{
    if lists.len() >= COUNT_LIMIT || !stop(lists) || !all_end_late(lists) {
        return false;
    }
    if !all_go_to_blocks(lists, lists.len()) || !all_use_registers(lists, registers) {
        return false;
    }
    count_insns(lists).is_some()
}
