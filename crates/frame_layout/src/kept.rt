//! The transfers and registers of a point.

ghost use Rattle.std.specs.Prelude.{◌≡◌, ◌<◌, [], All, length, slice_get, slice_index_or, Some};
ghost use Rattle.alloc_model.specs.Temporaries.{flows_out};
ghost use Rattle.frame_emitter.specs.Items.{top_transfers, end_transfers, jump_transfers};
ghost use Rattle.frame_emitter.specs.Layouts.{plan_in};
ghost use Rattle.frame_emitter.specs.Moves.{IsMove};
ghost use Rattle.frame_layout.specs.model.Sound.{IsSound, GoesNext};

use crate::edges::{EdgePlaces, ends_with_branch};
use alloc_model::allocation::Transfer;
use frame_emitter::layout::FrameLayout;
use pass_core::Insn;
use temp_ir::insn::TempInsn;

/// Whether the next block follows a block.
fn flows_out(insns: &[TempInsn]) -> bool
    ensures { result ≡ flows_out insns.now }
{
    match insns.last() {
        None => true,
        Some(insn) => insn.goes_on(),
    }
}

/// The transfers before the instruction with a number.
#[tactic(auto, using(crate::proofs::Sound::moves_at))]
pub(crate) fn transfers_at<'a>(layout: &FrameLayout<'a>, number: usize) -> &'a [Transfer]
    requires { IsSound layout.now }
    ensures is { result.now ≡ slice_index_or layout.now.allocation.now.at number [] }
    ensures moves { All (IsMove layout.now.allocation.now.func.temps) result.now }
{
    match layout.allocation.at.as_slice().get(number) {
        None => &[],
        Some(list) => list.as_slice(),
    }
}

/// The registers of its temporaries.
#[tactic(auto, using(crate::proofs::Sound::registers_at))]
pub(crate) fn registers_at<'a>(layout: &FrameLayout<'a>, number: usize) -> &'a [u8]
    requires { IsSound layout.now }
    ensures is { result.now ≡ slice_index_or layout.now.allocation.now.regs number [] }
    ensures registers { All (λ r. r < 32) result.now }
{
    match layout.allocation.regs.as_slice().get(number) {
        None => &[],
        Some(list) => list.as_slice(),
    }
}

/// The transfers at the top of a block.
#[tactic(auto, using(crate::proofs::Sound::top_of, crate::proofs::Sound::code_moves))]
pub(crate) fn top_transfers<'a>(
    layout: &FrameLayout<'_>,
    edges: &'a EdgePlaces<'_>,
    block: u32,
) -> &'a [Transfer]
    requires sound { IsSound layout.now }
    requires blocks { edges.now.blocks.now ≡ layout.now.blocks.now }
    requires edges { edges.now.edges.now ≡ layout.now.allocation.now.edges }
    requires block { block < length layout.now.blocks.now }
    ensures is { result.now ≡ top_transfers (plan_in layout.now) block }
    ensures moves { All (IsMove layout.now.allocation.now.func.temps) result.now }
{
    edges.top(block)
}

/// The transfers at the end of a block.
#[tactic(auto, using(crate::proofs::Sound::end_stops, crate::proofs::Sound::end_branches, crate::proofs::Sound::end_flows, crate::proofs::Sound::code_moves))]
pub(crate) fn end_transfers<'a>(
    layout: &FrameLayout<'_>,
    edges: &'a EdgePlaces<'_>,
    block: u32,
    insns: &[TempInsn],
) -> &'a [Transfer]
    requires sound { IsSound layout.now }
    requires blocks { edges.now.blocks.now ≡ layout.now.blocks.now }
    requires edges { edges.now.edges.now ≡ layout.now.allocation.now.edges }
    requires block { slice_get layout.now.blocks.now block ≡ Some insns.now }
    ensures is { result.now ≡ end_transfers (plan_in layout.now) block insns.now }
    ensures moves { All (IsMove layout.now.allocation.now.func.temps) result.now }
{
    if !flows_out(insns) {
        return &[];
    }
    if ends_with_branch(insns) {
        return &[];
    }
    edges.end(block)
}

/// The transfers of a jump.
#[tactic(auto, using(crate::proofs::Sound::jump_is, crate::proofs::Sound::code_moves))]
pub(crate) fn jump_transfers<'a>(
    layout: &FrameLayout<'_>,
    edges: &'a EdgePlaces<'_>,
    block: u32,
    insns: &[TempInsn],
    insn: TempInsn,
) -> &'a [Transfer]
    requires sound { IsSound layout.now }
    requires blocks { edges.now.blocks.now ≡ layout.now.blocks.now }
    requires edges { edges.now.edges.now ≡ layout.now.allocation.now.edges }
    requires block { slice_get layout.now.blocks.now block ≡ Some insns.now }
    requires next { GoesNext insns.now insn }
    ensures is { result.now ≡ jump_transfers (plan_in layout.now) block insn }
    ensures moves { All (IsMove layout.now.allocation.now.func.temps) result.now }
{
    match insn {
        TempInsn::Jump { .. } => edges.end(block),
        _ => &[],
    }
}
