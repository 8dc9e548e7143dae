//! The items of transfers.

ghost use Rattle.std.specs.Prelude.{◌≡◌, ◌++◌, All, OnOk};
ghost use Rattle.frame_steps.specs.frame_transfers.Items.{transfer_items, items_of_transfers};
ghost use Rattle.frame_emitter.specs.Layouts.{shape_in};
ghost use Rattle.frame_emitter.specs.Moves.{IsMove};

use crate::accesses::{frame_load, frame_store, register_move};
use crate::items::FrameItems;
use crate::layout::FrameLayout;
use alloc_model::allocation::Transfer;
use std::alloc::AllocError;

/// A transfer.
fn transfer_item(
    items: &mut FrameItems,
    layout: &FrameLayout<'_>,
    transfer: Transfer,
) -> Result<(), AllocError>
    requires { IsMove (shape_in layout.now).temps transfer }
    ensures { OnOk result (items.new ≡ transfer_items (shape_in layout.now) transfer ++ items.old) }
{
    match transfer {
        Transfer::Store { temp, reg } => frame_store(items, reg, layout.slot_at(temp)),
        Transfer::Load { temp, reg } => frame_load(items, reg, layout.slot_at(temp)),
        Transfer::Shift { from, to, .. } => register_move(items, from, to),
    }
}

/// Transfers, which are done in their order. It fails only where memory is short.
#[tactic(auto, using(crate::proofs::Loops::transfer_more))]
pub fn transfers(
    items: &mut FrameItems,
    layout: &FrameLayout<'_>,
    transfers: &[Transfer],
) -> Result<(), AllocError>
    requires { All (IsMove (shape_in layout.now).temps) transfers.now }
    ensures { OnOk result (items.new ≡ items_of_transfers (shape_in layout.now) transfers.now items.old) }
{
    for k in (0..transfers.len()).rev() {
        transfer_item(items, layout, transfers[k])?;
    }
    Ok(())
}
