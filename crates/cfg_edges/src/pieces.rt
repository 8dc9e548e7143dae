//! What comes in the place of each block.

ghost use Rattle.std.specs.Prelude.{◌≡◌, ◌<◌, ◌+◌, ◌^◌, ◌++◌, [], ◌∷◌, All, length, map, true, OnOk, IfOk};
ghost use Rattle.pass_core.specs.Functions.{AllInsns, EndsLate, last_of};
ghost use Rattle.cfg_edges.specs.model.Split.{to_one, target_of, target_after, pieces, split_from};

use bk_containers::Seq;
use cfg::renumber_block;
use pass_core::Insn;
use pass_core::block::Block;
use std::alloc::{AllocError, Global};

/// Makes a block the target of an instruction, if it has one, and gives the target that it had, or 0.
fn set_only_target<I: Insn>(insn: &mut I, to: u32) -> u32
    ensures target { result ≡ target_of I.targets insn.old }
    ensures insn { insn.new ≡ to_one I.targets I.with_target to insn.old }
{
    match insn.target_at(0) {
        None => 0,
        Some(old) => {
            insn.set_target(0, to);
            old
        }
    }
}

/// Makes a block the target of another one's last instruction, if that has one, and gives the target that it had, or 0.
fn redirect<I: Insn>(alloc: Global, block: &mut Block<I>, to: u32) -> u32
    requires { EndsLate I.targets I.flows_on block.old }
    ensures target { result ≡ target_after I.targets (last_of block.old) }
    ensures block { block.new ≡ map (to_one I.targets I.with_target to) block.old }
{
    match block.insns.last() {
        None => 0,
        Some(id) => {
            let mut insn = block.insns.set(id, I::jump(alloc, 0));
            let old = set_only_target(&mut insn, to);
            let _jump = block.insns.set(id, insn);
            old
        }
    }
}

/// A block that is a jump alone.
fn jump_block<I: Insn>(alloc: Global, to: u32) -> Result<Block<I>, AllocError>
    ensures { IfOk result (λ block. block ≡ I.jump_to to ∷ []) }
{
    let mut block = Block::new(alloc);
    block.push(I::jump(alloc, to))?;
    Ok(block)
}

/// Puts what comes in the place of a block that is split behind the others.
fn put_split<I: Insn>(
    alloc: Global,
    put: &mut Seq<Block<I>>,
    block: Block<I>,
    numbers: &[u32],
    number: usize,
) -> Result<(), AllocError>
    requires late { EndsLate I.targets I.flows_on block }
    requires there { number + 1 < length numbers.now }
    requires within { All (λ i. All (λ target. target < length numbers.now) (I.targets i)) block }
    requires small { All (λ n. n + 2 < 2 ^ 32) numbers.now }
    ensures { OnOk result (put.new ≡
        put.old ++ pieces I.targets I.with_target I.jump_to numbers.now number true block) }
{
    let mut block = block;
    let target = redirect(alloc, &mut block, numbers[number] + 2);
    put.push(block)?;
    put.push(jump_block(alloc, numbers[number + 1])?)?;
    put.push(jump_block(alloc, numbers[target as usize])?)?;
    Ok(())
}

/// Puts what comes in the place of a block behind the others.
fn put_block<I: Insn>(
    alloc: Global,
    put: &mut Seq<Block<I>>,
    block: Block<I>,
    split: bool,
    numbers: &[u32],
    number: usize,
) -> Result<(), AllocError>
    requires late { EndsLate I.targets I.flows_on block }
    requires there { number + 1 < length numbers.now }
    requires within { All (λ i. All (λ target. target < length numbers.now) (I.targets i)) block }
    requires small { All (λ n. n + 2 < 2 ^ 32) numbers.now }
    ensures { OnOk result (put.new ≡
        put.old ++ pieces I.targets I.with_target I.jump_to numbers.now number split block) }
{
    if split {
        return put_split(alloc, put, block, numbers, number);
    }
    let mut block = block;
    renumber_block(alloc, &mut block, numbers);
    put.push(block)
}

/// What comes in the place of all blocks.
pub(crate) fn put_all<I: Insn>(
    alloc: Global,
    blocks: Seq<Block<I>>,
    splits: &[bool],
    numbers: &[u32],
) -> Result<Seq<Block<I>>, AllocError>
    requires count { length splits.now ≡ length blocks }
    requires there { length blocks < length numbers.now }
    requires late { All (EndsLate I.targets I.flows_on) blocks }
    requires within { AllInsns (λ i. All (λ target. target < length numbers.now) (I.targets i)) blocks }
    requires small { All (λ n. n + 2 < 2 ^ 32) numbers.now }
    ensures { IfOk result (λ put. put ≡ split_from I.targets I.with_target I.jump_to numbers.now 0 splits.now blocks) }
{
    let mut put = Seq::new(alloc);
    let mut number = 0;
    for block in Seq::into_vec(blocks) {
        put_block(alloc, &mut put, block, splits[number], numbers, number)?;
        number += 1;
    }
    Ok(put)
}
