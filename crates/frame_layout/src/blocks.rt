//! The items of a function's blocks, made from the last one to the first.

ghost use Rattle.std.specs.Prelude.{◌≡◌, ◌+◌, ◌<◌, ◌^◌, ◌∷◌, take, length, slice_get, Some, OnOk};
ghost use Rattle.alpha_items.specs.declared.item.AsmItem.TheVariants as item;
ghost use Rattle.pass_core.specs.Functions.{count_of};
ghost use Rattle.frame_emitter.specs.Items.{point_items, insns_items, block_items, blocks_items};
ghost use Rattle.frame_emitter.specs.Layouts.{plan_in, setting_in};
ghost use Rattle.frame_emitter.specs.Settings.{IsFit};
ghost use Rattle.frame_layout.specs.model.Sound.{IsSound, GoesNext};

use crate::edges::EdgePlaces;
use crate::kept::{end_transfers, jump_transfers, registers_at, top_transfers, transfers_at};
use frame_emitter::insns::insn_items;
use frame_emitter::items::FrameItems;
use frame_emitter::layout::FrameLayout;
use frame_emitter::transfers::transfers;
use std::alloc::AllocError;
use temp_ir::insn::TempInsn;

/// A place in a block: the block's number, that of its first instruction, and how many stand before the place.
#[derive(Clone, Copy, Debug)]
struct Point {
    block: u32,
    first: usize,
    at: usize,
}

/// The instruction at a place.
fn insn_at(insns: &[TempInsn], at: usize) -> TempInsn
    requires { at < length insns.now }
    ensures { slice_get insns.now at ≡ Some result }
{
    insns[at]
}

/// An instruction of a block with the transfers before it.
fn point_items(
    items: &mut FrameItems,
    layout: &FrameLayout<'_>,
    edges: &EdgePlaces<'_>,
    point: Point,
    insns: &[TempInsn],
    insn: TempInsn,
) -> Result<(), AllocError>
    requires sound { IsSound layout.now }
    requires blocks { edges.now.blocks.now ≡ layout.now.blocks.now }
    requires edges { edges.now.edges.now ≡ layout.now.allocation.now.edges }
    requires block { slice_get layout.now.blocks.now point.block ≡ Some insns.now }
    requires first { point.first ≡ count_of (take point.block layout.now.blocks.now) }
    requires few { point.first + point.at < 2 ^ 31 }
    requires fit { IsFit (setting_in layout.now) insn }
    requires next { GoesNext insns.now insn }
    ensures { OnOk result
        (items.new ≡ point_items (plan_in layout.now) (setting_in layout.now) point.block point.at insn items.old) }
{
    let number = point.first + point.at;
    insn_items(items, layout, registers_at(layout, number), insn)?;
    transfers(
        items,
        layout,
        jump_transfers(layout, edges, point.block, insns, insn),
    )?;
    transfers(items, layout, transfers_at(layout, number))
}

/// The instructions of a block, of which the first has a number.
#[tactic(auto, using(crate::proofs::Texts::first_small, crate::proofs::Texts::fit_at, crate::proofs::Texts::goes_at))]
fn insns_items(
    items: &mut FrameItems,
    layout: &FrameLayout<'_>,
    edges: &EdgePlaces<'_>,
    block: u32,
    first: usize,
    insns: &[TempInsn],
) -> Result<(), AllocError>
    requires sound { IsSound layout.now }
    requires blocks { edges.now.blocks.now ≡ layout.now.blocks.now }
    requires edges { edges.now.edges.now ≡ layout.now.allocation.now.edges }
    requires block { slice_get layout.now.blocks.now block ≡ Some insns.now }
    requires first { first ≡ count_of (take block layout.now.blocks.now) }
    ensures { OnOk result
        (items.new ≡ insns_items (plan_in layout.now) (setting_in layout.now) block 0 insns.now items.old) }
{
    for at in (0..insns.len()).rev() {
        let point = Point { block, first, at };
        let insn = insn_at(insns, at);
        point_items(items, layout, edges, point, insns, insn)?;
    }
    Ok(())
}

/// A block with its label.
fn block_items(
    items: &mut FrameItems,
    layout: &FrameLayout<'_>,
    edges: &EdgePlaces<'_>,
    block: u32,
    first: usize,
    insns: &[TempInsn],
) -> Result<(), AllocError>
    requires sound { IsSound layout.now }
    requires blocks { edges.now.blocks.now ≡ layout.now.blocks.now }
    requires edges { edges.now.edges.now ≡ layout.now.allocation.now.edges }
    requires block { slice_get layout.now.blocks.now block ≡ Some insns.now }
    requires first { first ≡ count_of (take block layout.now.blocks.now) }
    requires inside { block < length layout.now.blocks.now }
    ensures { OnOk result
        (items.new ≡ item.Label ((setting_in layout.now).block_label block) ∷
        block_items (plan_in layout.now) (setting_in layout.now) block insns.now items.old) }
{
    transfers(items, layout, end_transfers(layout, edges, block, insns))?;
    insns_items(items, layout, edges, block, first, insns)?;
    transfers(items, layout, top_transfers(layout, edges, block))?;
    items.label(layout.block_label(block))
}

/// All blocks, which have so many instructions. It fails only where memory is short.
#[tactic(auto, using(crate::proofs::Texts::blocks_more, crate::proofs::Texts::count_before))]
pub(crate) fn blocks_items(
    items: &mut FrameItems,
    layout: &FrameLayout<'_>,
    edges: &EdgePlaces<'_>,
    count: usize,
) -> Result<(), AllocError>
    requires sound { IsSound layout.now }
    requires blocks { edges.now.blocks.now ≡ layout.now.blocks.now }
    requires edges { edges.now.edges.now ≡ layout.now.allocation.now.edges }
    requires count { count ≡ count_of layout.now.blocks.now }
    ensures { OnOk result
        (items.new ≡ blocks_items (plan_in layout.now) (setting_in layout.now) 0 layout.now.blocks.now items.old) }
{
    let mut first = count;
    for block in (0..layout.blocks.len()).rev() {
        let insns = layout.blocks[block].as_slice();
        first -= insns.len();
        block_items(items, layout, edges, block as u32, first, insns)?;
    }
    Ok(())
}
