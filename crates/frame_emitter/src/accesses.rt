//! FrameItems that reach the frame, and that move registers.

ghost use Rattle.std.specs.Prelude.{◌≡◌, ◌<◌, ◌++◌, ◌*◌, pos, ◌-ℤ◌, OnOk};
ghost use Rattle.alpha_items.specs.Words.{high_of, most_address};
ghost use Rattle.frame_steps.specs.frame_accesses.Items.{frame_item, frame_load, frame_store, frame_address, register_move};

use crate::items::FrameItems;
use alpha_isa::insn::{Fields, MemoryOp, Operand, OperateOp};
use std::alloc::AllocError;

/// Offsets below this fit a displacement.
pub(crate) const NEAR_SIZE: u64 = 32_768;

/// The stack pointer, the register by which far places of the frame are reached, and the one that is zero.
pub(crate) const STACK: u8 = 30;

const WAY: u8 = 29;

pub(crate) const ZERO: u8 = 31;

/// The register that calls of functions write the return address to.
pub(crate) const RETURN: u8 = 26;

/// How many times 65,536 stand in an offset, with the nearest one counted.
pub(crate) fn high_part(offset: u64) -> i16
    requires { offset < most_address }
    ensures { result ≡ pos (high_of offset) }
{
    ((offset + 32_768) / 65_536) as i16
}

/// What an offset has beyond its high part, from -32,768 to 32,767.
pub(crate) fn low_part(offset: u64) -> i16
    requires { offset < most_address }
    ensures { result ≡ pos offset -ℤ pos (high_of offset * 65536) }
{
    (offset as i64 - i64::from(high_part(offset)) * 65_536) as i16
}

/// An instruction at an offset from the stack pointer.
fn frame_item(
    items: &mut FrameItems,
    op: MemoryOp,
    register: u8,
    offset: u64,
) -> Result<(), AllocError>
    requires register { register < 32 }
    requires offset { offset < most_address }
    ensures { OnOk result (items.new ≡ frame_item op 29 register offset ++ items.old) }
{
    if offset < NEAR_SIZE {
        return items.memory(op, register, STACK, offset as i16);
    }
    items.memory(op, register, WAY, low_part(offset))?;
    items.memory(MemoryOp::Ldah, WAY, STACK, high_part(offset))
}

/// A register is loaded from the frame.
pub fn frame_load(items: &mut FrameItems, register: u8, offset: u64) -> Result<(), AllocError>
    requires register { register < 32 }
    requires offset { offset < most_address }
    ensures { OnOk result (items.new ≡ frame_load register offset ++ items.old) }
{
    frame_item(items, MemoryOp::Ldq, register, offset)
}

/// A register is stored in the frame.
pub fn frame_store(items: &mut FrameItems, register: u8, offset: u64) -> Result<(), AllocError>
    requires register { register < 32 }
    requires offset { offset < most_address }
    ensures { OnOk result (items.new ≡ frame_store register offset ++ items.old) }
{
    frame_item(items, MemoryOp::Stq, register, offset)
}

/// A register is set to the address of a place in the frame.
pub fn frame_address(items: &mut FrameItems, register: u8, offset: u64) -> Result<(), AllocError>
    requires register { register < 32 }
    requires offset { offset < most_address }
    ensures { OnOk result (items.new ≡ frame_address register offset ++ items.old) }
{
    frame_item(items, MemoryOp::Lda, register, offset)
}

/// A register comes to hold what another one holds. From a register to itself there is nothing to do.
pub fn register_move(items: &mut FrameItems, from: u8, to: u8) -> Result<(), AllocError>
    requires from { from < 32 }
    requires to { to < 32 }
    ensures { OnOk result (items.new ≡ register_move from to ++ items.old) }
{
    if from == to {
        return Ok(());
    }
    items.plain(Fields::Operate {
        op: OperateOp::Bis,
        ra: ZERO,
        rb: Operand::Reg(from),
        rc: to,
    })
}
