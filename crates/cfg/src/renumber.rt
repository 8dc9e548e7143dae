//! Blocks that get other numbers.

ghost use Rattle.std.specs.Prelude.{◌≡◌, [], ◌∷◌, ◌++◌, ◌<◌, ◌+◌, ◌-◌, ◌^◌, All, length, map, OnOk, IfOk, if◌then◌else◌};
ghost use Rattle.std.specs.List.{range_with_len};
ghost use Rattle.pass_core.specs.Functions.{AllInsns, EndsLate};
ghost use Rattle.cfg.specs.Renumber.{renumber};
ghost use Rattle.cfg.specs.model.Marked.{number_in, marked_of};

use bk_containers::Seq;
use pass_core::Insn;
use pass_core::block::Block;
use std::alloc::{AllocError, Global};

/// The number of the next block, behind one that is marked or not.
fn number_behind(number: u32, mark: bool) -> u32
    requires { number + 1 < 2 ^ 32 }
    ensures { result ≡ (if mark then number + 1 else number) }
{
    if mark { number + 1 } else { number }
}

/// The numbers of the marked blocks where no others stand between them. That of another block is the next one's.
pub(crate) fn numbers_of(alloc: Global, marks: &[bool]) -> Result<Vec<u32>, AllocError>
    requires { length marks.now < 2 ^ 32 - 1 }
    ensures { IfOk result (λ numbers.
        numbers.items ≡ map (number_in marks.now) (range_with_len 0 (length marks.now))) }
{
    let mut numbers = Vec::new(alloc);
    let mut next = 0;
    for mark in marks {
        numbers.push(next)?;
        next = number_behind(next, *mark);
    }
    Ok(numbers)
}

/// Replaces each target of an instruction by its number.
fn renumber_insn<I: Insn>(insn: &mut I, numbers: &[u32])
    requires { All (λ target. target < length numbers.now) (I.targets insn.old) }
    ensures { insn.new ≡ renumber I.targets I.with_target numbers.now insn.old }
{
    match insn.target_at(0) {
        None => {}
        Some(block) => insn.set_target(0, numbers[block as usize]),
    }
}

/// Replaces each target of a block, by its number, by another number. Takes no memory.
pub fn renumber_block<I: Insn>(alloc: Global, block: &mut Block<I>, numbers: &[u32])
    requires within { All (λ i. All (λ target. target < length numbers.now) (I.targets i)) block.old }
    requires straight { EndsLate I.targets I.flows_on block.old }
    ensures { block.new ≡ map (renumber I.targets I.with_target numbers.now) block.old }
{
    match block.insns.last() {
        None => {}
        Some(id) => {
            let mut insn = block.insns.set(id, I::jump(alloc, 0));
            renumber_insn(&mut insn, numbers);
            let _jump = block.insns.set(id, insn);
        }
    }
}

/// Puts a block behind those kept, with each target replaced by its number, if it is marked.
fn keep_block<I: Insn>(
    alloc: Global,
    kept: &mut Seq<Block<I>>,
    block: Block<I>,
    mark: bool,
    numbers: &[u32],
) -> Result<(), AllocError>
    requires within { All (λ i. All (λ target. target < length numbers.now) (I.targets i)) block }
    requires straight { EndsLate I.targets I.flows_on block }
    ensures { OnOk result (kept.new ≡
        kept.old ++ (if mark then map (renumber I.targets I.with_target numbers.now) block ∷ [] else [])) }
{
    if !mark {
        return Ok(());
    }
    let mut block = block;
    renumber_block(alloc, &mut block, numbers);
    kept.push(block)
}

/// The marked blocks, with each target replaced by its number.
pub(crate) fn marked_blocks<I: Insn>(
    alloc: Global,
    blocks: Seq<Block<I>>,
    marks: &[bool],
    numbers: &[u32],
) -> Result<Seq<Block<I>>, AllocError>
    requires count { length marks.now ≡ length blocks }
    requires within { AllInsns (λ i. All (λ target. target < length numbers.now) (I.targets i)) blocks }
    requires straight { All (EndsLate I.targets I.flows_on) blocks }
    ensures { IfOk result (λ kept.
        kept ≡ map (map (renumber I.targets I.with_target numbers.now)) (marked_of marks.now blocks)) }
{
    let mut kept = Seq::new(alloc);
    let mut number = 0;
    for block in Seq::into_vec(blocks) {
        keep_block(alloc, &mut kept, block, marks[number], numbers)?;
        number += 1;
    }
    Ok(kept)
}
