//! What blocks put behind the parts and references of temporaries.

ghost use Rattle.std.specs.Prelude.{◌≡◌, ◌+◌, ◌*◌, ◌-◌, ◌<◌, ◌≤◌, ◌^◌, [], All, length, replicate, OnOk, IfOk};
ghost use Rattle.pass_core.specs.Functions.{AllInsns, UsesRegisters, count_of};
ghost use Rattle.temp_ir.specs.Insns.{reads_of, writes_of};
ghost use Rattle.bitvector_flow.specs.Flows.{AreBounded};
ghost use Rattle.bk_bits.specs.Sets.{has};
ghost use Rattle.lifetime_holes.specs.model.Spans.{JoinsSome, Changes};
ghost use Rattle.lifetime_holes.specs.model.Walks.{AreSpanned, AreCounted, AreDone};

use crate::insns::{mark_insns, mark_set};
use alloc_rules::scan::LifetimePart;
use bk_bits::BitSet;
use bk_containers::Seq;
use pass_core::block::Block;
use std::alloc::{AllocError, Global};
use temp_ir::insn::TempInsn;

/// Puts the whole of a block behind the parts of what is live at its bottom, if it has instructions: those with numbers
/// from one on to below another.
fn mark_bottom(
    alloc: Global,
    table: &mut [Seq<LifetimePart>],
    bottom: &BitSet,
    number: u32,
    next: u32,
) -> Result<(), AllocError>
    requires few { next < 2 ^ 30 }
    requires bottom { length bottom.now ≤ length table.now }
    requires few_parts { length table.now < 2 ^ 32 }
    ensures closed { OnOk result (number < next → Changes (has bottom.now) (JoinsSome (2 * number) (2 * next - 1)) table.old table.new) }
    ensures kept { OnOk result (next ≤ number → table.new ≡ table.old) }
{
    if number < next {
        mark_set(alloc, table, bottom, 2 * number, 2 * next - 1)
    } else {
        Ok(())
    }
}

/// Puts a block behind the parts and references so far, and gives the number behind it.
fn mark_block(
    alloc: Global,
    parts: &mut [Seq<LifetimePart>],
    refs: &mut [Seq<u32>],
    block: &Block<TempInsn>,
    bottom: &BitSet,
    number: u32,
) -> Result<u32, AllocError>
    requires few { number + length block.now < 2 ^ 30 }
    requires parts { All (UsesRegisters reads_of writes_of (length parts.now)) block.now }
    requires refs { All (UsesRegisters reads_of writes_of (length refs.now)) block.now }
    requires bottom { length bottom.now ≤ length parts.now }
    requires few_parts { length parts.now < 2 ^ 32 }
    ensures next { IfOk result (λ next. next ≡ number + length block.now) }
    ensures parts { OnOk result (AreSpanned number block.now bottom.now parts.old parts.new) }
    ensures refs { OnOk result (AreCounted number block.now refs.old refs.new) }
{
    let next = mark_insns(alloc, parts, refs, block, number)?;
    mark_bottom(alloc, parts, bottom, number, next)?;
    Ok(next)
}

/// Puts all blocks behind parts and references of which there are none.
pub(crate) fn mark_blocks(
    alloc: Global,
    parts: &mut [Seq<LifetimePart>],
    refs: &mut [Seq<u32>],
    blocks: &[Block<TempInsn>],
    bottoms: &[BitSet],
) -> Result<(), AllocError>
    requires few { count_of blocks.now < 2 ^ 30 }
    requires no_parts { parts.now ≡ replicate (length parts.now) [] }
    requires no_refs { refs.now ≡ replicate (length parts.now) [] }
    requires inside { AllInsns (UsesRegisters reads_of writes_of (length parts.now)) blocks.now }
    requires bottoms { AreBounded (length blocks.now) (length parts.now) bottoms.now }
    requires few_parts { length parts.now < 2 ^ 32 }
    ensures { OnOk result (AreDone blocks.now bottoms.now (length blocks.now) (length parts.old) parts.new refs.new) }
{
    let mut number = 0;
    for (place, block) in blocks.iter().enumerate() {
        number = mark_block(alloc, parts, refs, block, &bottoms[place], number)?;
    }
    Ok(())
}
