//! The parts of a function by which it is entered and left.

ghost use Rattle.std.specs.Prelude.{◌≡◌, ◌+◌, ◌*◌, ◌-◌, ◌<◌, ◌≤◌, ◌++◌, ◌^◌, ◌∷◌, pos, ◌-ℤ◌, OnOk};
ghost use Rattle.alpha_isa.specs.declared.insn.Fields.TheVariants as fields;
ghost use Rattle.alpha_isa.specs.declared.insn.JumpOp.TheVariants as jump;
ghost use Rattle.alpha_items.specs.declared.item.AsmItem.TheVariants as item;
ghost use Rattle.frame_steps.specs.call_parts.Items.{high_below, lower_stack, raise_stack, save_if, save_registers, restore_if, restore_registers, entry_part, exit_part};
ghost use Rattle.frame_steps.specs.function_items.Items.{exit_items};
ghost use Rattle.frame_emitter.specs.Layouts.{setting_in, shape_in};

use crate::accesses::{
    NEAR_SIZE, RETURN, STACK, ZERO, frame_load, frame_store, high_part, low_part,
};
use crate::items::FrameItems;
use crate::layout::FrameLayout;
use alpha_isa::insn::{Fields, JumpOp, MemoryOp};
use std::alloc::AllocError;

/// The high part of a displacement that leads down by a size.
fn high_below(size: u64) -> i16
    requires { size ≤ 2 ^ 29 }
    ensures { result ≡ pos 0 -ℤ pos (high_below size) }
{
    (0 - ((size + 32_767) / 65_536) as i64) as i16
}

/// And the rest of it.
fn low_below(size: u64) -> i16
    requires { size ≤ 2 ^ 29 }
    ensures { result ≡ pos (high_below size * 65536) -ℤ pos size }
{
    (((size + 32_767) / 65_536 * 65_536) as i64 - size as i64) as i16
}

/// The stack pointer is lowered by a size.
fn lower_stack(items: &mut FrameItems, size: u64) -> Result<(), AllocError>
    requires { size ≤ 2 ^ 29 }
    ensures { OnOk result (items.new ≡ lower_stack size items.old) }
{
    if size < NEAR_SIZE {
        return items.memory(MemoryOp::Lda, STACK, STACK, (0 - size as i64) as i16);
    }
    items.memory(MemoryOp::Lda, STACK, STACK, low_below(size))?;
    items.memory(MemoryOp::Ldah, STACK, STACK, high_below(size))
}

/// The stack pointer is raised by a size.
fn raise_stack(items: &mut FrameItems, size: u64) -> Result<(), AllocError>
    requires { size ≤ 2 ^ 29 }
    ensures { OnOk result (items.new ≡ raise_stack size items.old) }
{
    if size < NEAR_SIZE {
        return items.memory(MemoryOp::Lda, STACK, STACK, size as i16);
    }
    items.memory(MemoryOp::Lda, STACK, STACK, low_part(size))?;
    items.memory(MemoryOp::Ldah, STACK, STACK, high_part(size))
}

/// A register is stored in its place, if it is saved.
fn save_if(items: &mut FrameItems, layout: &FrameLayout<'_>, register: u8) -> Result<(), AllocError>
    requires low { 9 ≤ register }
    requires high { register < 16 }
    ensures { OnOk result
        (items.new ≡ save_if (shape_in layout.now) ((shape_in layout.now).saves register) register items.old) }
{
    if !layout.is_saved(register) {
        return Ok(());
    }
    frame_store(items, register, layout.saved_at(register))
}

/// And loaded again.
fn restore_if(
    items: &mut FrameItems,
    layout: &FrameLayout<'_>,
    register: u8,
) -> Result<(), AllocError>
    requires low { 9 ≤ register }
    requires high { register < 16 }
    ensures { OnOk result
        (items.new ≡ restore_if (shape_in layout.now) ((shape_in layout.now).saves register) register items.old) }
{
    if !layout.is_saved(register) {
        return Ok(());
    }
    frame_load(items, register, layout.saved_at(register))
}

/// The saved registers are stored.
fn save_registers(items: &mut FrameItems, layout: &FrameLayout<'_>) -> Result<(), AllocError>
    ensures { OnOk result
        (items.new ≡ save_registers (shape_in layout.now) (shape_in layout.now).saves 9 7 items.old) }
{
    for register in (9u8..16).rev() {
        save_if(items, layout, register)?;
    }
    Ok(())
}

/// And loaded again.
fn restore_registers(items: &mut FrameItems, layout: &FrameLayout<'_>) -> Result<(), AllocError>
    ensures { OnOk result
        (items.new ≡ restore_registers (shape_in layout.now) (shape_in layout.now).saves 9 7 items.old) }
{
    for register in (9u8..16).rev() {
        restore_if(items, layout, register)?;
    }
    Ok(())
}

/// The part by which a function is entered: it lowers the stack pointer, and keeps in the frame the return address and
/// the registers that it saves. It fails only where memory is short.
pub fn entry_part(items: &mut FrameItems, layout: &FrameLayout<'_>) -> Result<(), AllocError>
    ensures { OnOk result
        (items.new ≡ entry_part (shape_in layout.now) (shape_in layout.now).saves items.old) }
{
    save_registers(items, layout)?;
    frame_store(items, RETURN, layout.return_at())?;
    lower_stack(items, layout.size)
}

/// The part by which a function is left: the saved registers and the return address are loaded again, and the stack
/// pointer is raised.
fn exit_part(items: &mut FrameItems, layout: &FrameLayout<'_>) -> Result<(), AllocError>
    ensures { OnOk result
        (items.new ≡ exit_part (shape_in layout.now) (shape_in layout.now).saves items.old) }
{
    items.plain(Fields::Jump {
        op: JumpOp::Ret,
        ra: ZERO,
        rb: RETURN,
    })?;
    raise_stack(items, layout.size)?;
    frame_load(items, RETURN, layout.return_at())?;
    restore_registers(items, layout)
}

/// That part with its label. It fails only where memory is short.
pub fn exit_items(items: &mut FrameItems, layout: &FrameLayout<'_>) -> Result<(), AllocError>
    ensures { OnOk result (items.new ≡ exit_items (setting_in layout.now) items.old) }
{
    exit_part(items, layout)?;
    items.label(layout.exit_label)
}
