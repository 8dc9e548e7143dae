//! The code of loads and stores.

ghost use Rattle.std.specs.Prelude.{◌≡◌, [], ◌∷◌, ◌++◌, OnOk};
ghost use Rattle.selection_forms.specs.alpha_forms.Accesses as accesses;

use crate::alpha_forms::constants::put_constant;
use crate::alpha_forms::operations::{SCRATCH, on_two};
use pass_core::block::Block;
use std::alloc::AllocError;
use suifvm_ir::types::MemoryType;
use temp_ir::insn::{FirstOperand, SecondOperand, TempInsn};
use temp_ir::operation::{ExtendOp, LoadOp, Operation, StoreOp};

/// A number of bytes, where it is a displacement of 16 bits.
fn near_part(plus: i64) -> Option<i16>
    ensures { result ≡ accesses.near_part plus }
{
    i16::try_from(plus).ok()
}

/// Puts the code that moves a pointer by a number into the temporary for such use.
fn put_far(out: &mut Block<TempInsn>, pointer: u32, plus: i64) -> Result<(), AllocError>
    ensures { OnOk result (out.new ≡ out.old ++ accesses.far_items pointer plus) }
{
    put_constant(out, SCRATCH, plus.cast_unsigned())?;
    out.push(on_two(Operation::Addq, SCRATCH, pointer, SCRATCH))
}

/// Puts a load.
fn put_plain_load(
    out: &mut Block<TempInsn>,
    op: LoadOp,
    destination: u32,
    pointer: u32,
    plus: i16,
) -> Result<(), AllocError>
    ensures { OnOk result (out.new ≡ out.old ++ accesses.plain_load op destination pointer plus) }
{
    out.push(TempInsn::Load {
        op,
        destination,
        pointer,
        plus,
    })
}

/// Puts a load whose sign is extended.
fn put_extended_load(
    out: &mut Block<TempInsn>,
    op: LoadOp,
    extend: ExtendOp,
    destination: u32,
    pointer: u32,
    plus: i16,
) -> Result<(), AllocError>
    ensures { OnOk result (out.new ≡ out.old ++ accesses.extended_load op extend destination pointer plus) }
{
    put_plain_load(out, op, SCRATCH, pointer, plus)?;
    out.push(TempInsn::Extend {
        op: extend,
        destination,
        source: SecondOperand::Temp(SCRATCH),
    })
}

/// Puts a load by its type, with a displacement that fits.
fn put_near_load(
    out: &mut Block<TempInsn>,
    ty: MemoryType,
    destination: u32,
    pointer: u32,
    plus: i16,
) -> Result<(), AllocError>
    ensures { OnOk result (out.new ≡ out.old ++ accesses.near_load ty destination pointer plus) }
{
    match ty {
        MemoryType::S8 => {
            put_extended_load(
                out,
                LoadOp::Ldbu,
                ExtendOp::Sextb,
                destination,
                pointer,
                plus,
            )
        }
        MemoryType::U8 => put_plain_load(out, LoadOp::Ldbu, destination, pointer, plus),
        MemoryType::S16 => {
            put_extended_load(
                out,
                LoadOp::Ldwu,
                ExtendOp::Sextw,
                destination,
                pointer,
                plus,
            )
        }
        MemoryType::U16 => put_plain_load(out, LoadOp::Ldwu, destination, pointer, plus),
        MemoryType::S32 => put_plain_load(out, LoadOp::Ldl, destination, pointer, plus),
        MemoryType::U32 => put_plain_load(out, LoadOp::Ldl, destination, pointer, plus),
        MemoryType::S64 => put_plain_load(out, LoadOp::Ldq, destination, pointer, plus),
        MemoryType::U64 => put_plain_load(out, LoadOp::Ldq, destination, pointer, plus),
        MemoryType::P64 => put_plain_load(out, LoadOp::Ldq, destination, pointer, plus),
    }
}

/// Puts a load.
pub fn put_load(
    out: &mut Block<TempInsn>,
    ty: MemoryType,
    destination: u32,
    pointer: u32,
    plus: i64,
) -> Result<(), AllocError>
    ensures { OnOk result (out.new ≡ out.old ++ accesses.load_items ty destination pointer plus) }
{
    match near_part(plus) {
        Some(near) => put_near_load(out, ty, destination, pointer, near),
        None => {
            put_far(out, pointer, plus)?;
            put_near_load(out, ty, destination, SCRATCH, 0)
        }
    }
}

/// The operation of a store.
fn store_op(ty: MemoryType) -> StoreOp
    ensures { result ≡ accesses.temp_store ty }
{
    match ty {
        MemoryType::S8 => StoreOp::Stb,
        MemoryType::U8 => StoreOp::Stb,
        MemoryType::S16 => StoreOp::Stw,
        MemoryType::U16 => StoreOp::Stw,
        MemoryType::S32 => StoreOp::Stl,
        MemoryType::U32 => StoreOp::Stl,
        MemoryType::S64 => StoreOp::Stq,
        MemoryType::U64 => StoreOp::Stq,
        MemoryType::P64 => StoreOp::Stq,
    }
}

/// Puts a store, with a displacement that fits.
fn put_near_store(
    out: &mut Block<TempInsn>,
    ty: MemoryType,
    value: u32,
    pointer: u32,
    plus: i16,
) -> Result<(), AllocError>
    ensures { OnOk result (out.new ≡ out.old ++ accesses.near_store ty value pointer plus) }
{
    out.push(TempInsn::Store {
        op: store_op(ty),
        value: FirstOperand::Temp(value),
        pointer,
        plus,
    })
}

/// Puts a store.
pub fn put_store(
    out: &mut Block<TempInsn>,
    ty: MemoryType,
    pointer: u32,
    plus: i64,
    value: u32,
) -> Result<(), AllocError>
    ensures { OnOk result (out.new ≡ out.old ++ accesses.store_items ty pointer plus value) }
{
    match near_part(plus) {
        Some(near) => put_near_store(out, ty, value, pointer, near),
        None => {
            put_far(out, pointer, plus)?;
            put_near_store(out, ty, value, SCRATCH, 0)
        }
    }
}
