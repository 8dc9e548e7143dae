//! The code of a copy.

ghost use Rattle.std.specs.Prelude.{◌≡◌, ◌+◌, ◌<◌, ◌≤◌, ℕ, suc, ◌++◌, OnOk, IfOk};
ghost use Rattle.suifvm_ir.specs.Programs.{alignment_bytes};
ghost use Rattle.selection_forms.specs.alpha_copies.Copies as copies;

use crate::alpha_forms::operations::SCRATCH;
use pass_core::block::Block;
use std::alloc::AllocError;
use suifvm_ir::types::Alignment;
use temp_ir::insn::{FirstOperand, TempInsn};
use temp_ir::operation::{AddressOp, LoadOp, StoreOp};

/// The temporaries of the pointers once they are moved.
const MOVED_TO: u32 = 1;

const MOVED_FROM: u32 = 2;

/// The displacement from which on the pointers are moved, in bytes.
const REACH: u16 = 16_384;

/// The load of a part.
fn part_load(align: Alignment) -> LoadOp
    ensures { result ≡ copies.part_load align }
{
    match align {
        Alignment::One => LoadOp::Ldbu,
        Alignment::Two => LoadOp::Ldwu,
        Alignment::Four => LoadOp::Ldl,
        Alignment::Eight => LoadOp::Ldq,
    }
}

/// The store of a part.
fn part_store(align: Alignment) -> StoreOp
    ensures { result ≡ copies.part_store align }
{
    match align {
        Alignment::One => StoreOp::Stb,
        Alignment::Two => StoreOp::Stw,
        Alignment::Four => StoreOp::Stl,
        Alignment::Eight => StoreOp::Stq,
    }
}

/// The bytes of a part.
fn part_bytes(align: Alignment) -> u16
    ensures is { result ≡ alignment_bytes align }
    ensures some { 0 < result }
    ensures few { result ≤ 8 }
{
    match align {
        Alignment::One => 1,
        Alignment::Two => 2,
        Alignment::Four => 4,
        Alignment::Eight => 8,
    }
}

/// Puts one part at a displacement.
fn put_part(
    out: &mut Block<TempInsn>,
    align: Alignment,
    to: u32,
    from: u32,
    at: u16,
) -> Result<(), AllocError>
    requires { at < 32768 }
    ensures { OnOk result (out.new ≡ out.old ++ copies.part_items align to from at) }
{
    let plus = at.cast_signed();
    out.push(TempInsn::Load {
        op: part_load(align),
        destination: SCRATCH,
        pointer: from,
        plus,
    })?;
    out.push(TempInsn::Store {
        op: part_store(align),
        value: FirstOperand::Temp(SCRATCH),
        pointer: to,
        plus,
    })
}

/// Moves both pointers.
fn put_moves(out: &mut Block<TempInsn>, to: u32, from: u32, by: u16) -> Result<(), AllocError>
    requires { by < 32768 }
    ensures { OnOk result (out.new ≡ out.old ++ copies.moved_items to from by) }
{
    let plus = by.cast_signed();
    out.push(TempInsn::Address {
        op: AddressOp::Lda,
        destination: MOVED_TO,
        base: FirstOperand::Temp(to),
        plus,
    })?;
    out.push(TempInsn::Address {
        op: AddressOp::Lda,
        destination: MOVED_FROM,
        base: FirstOperand::Temp(from),
        plus,
    })
}

/// Where the next part stands: the temporaries of the pointers, and the displacement.
#[derive(Clone, Copy)]
struct Place {
    to: u32,
    from: u32,
    at: u16,
}

/// Puts a part behind moved pointers. Gives the place of the part behind it.
fn put_far_part(
    out: &mut Block<TempInsn>,
    align: Alignment,
    place: Place,
) -> Result<Place, AllocError>
    requires { place.at < 32768 }
    ensures put { OnOk result (out.new ≡
        out.old ++ (copies.moved_items place.to place.from place.at ++ copies.part_items align 1 2 0)) }
    ensures next { IfOk result (λ r. r ≡ record { to = 1; from = 2; at = alignment_bytes align }) }
{
    put_moves(out, place.to, place.from, place.at)?;
    put_part(out, align, MOVED_TO, MOVED_FROM, 0)?;
    Ok(Place {
        to: MOVED_TO,
        from: MOVED_FROM,
        at: part_bytes(align),
    })
}

/// Puts a part at its displacement. Gives the place of the part behind it.
fn put_near_part(
    out: &mut Block<TempInsn>,
    align: Alignment,
    place: Place,
) -> Result<Place, AllocError>
    requires { place.at < 16384 }
    ensures put { OnOk result (out.new ≡ out.old ++ copies.part_items align place.to place.from place.at) }
    ensures next { IfOk result (λ r. r ≡
        record { to = place.to; from = place.from; at = place.at + alignment_bytes align }) }
{
    put_part(out, align, place.to, place.from, place.at)?;
    Ok(Place {
        to: place.to,
        from: place.from,
        at: place.at + part_bytes(align),
    })
}

/// Puts the next part. Gives the place of the part behind it.
fn put_next(out: &mut Block<TempInsn>, align: Alignment, place: Place) -> Result<Place, AllocError>
    requires { place.at < 16392 }
    ensures put { IfOk result (λ r. (count : ℕ) →
        out.new ++ copies.parts_items align count r.to r.from r.at
        ≡ out.old ++ copies.parts_items align (suc count) place.to place.from place.at) }
    ensures small { IfOk result (λ r. r.at < 16392) }
{
    if place.at < REACH {
        put_near_part(out, align, place)
    } else {
        put_far_part(out, align, place)
    }
}

/// Puts the code of a copy of so many bytes, a whole number of parts.
pub fn put_copy(
    out: &mut Block<TempInsn>,
    align: Alignment,
    to: u32,
    from: u32,
    size: u64,
) -> Result<(), AllocError>
    ensures { OnOk result (out.new ≡ out.old ++ copies.copy_items align to from size) }
{
    let count = size / u64::from(part_bytes(align));
    let mut place = Place { to, from, at: 0 };
    for _part in 0..count {
        place = put_next(out, align, place)?;
    }
    Ok(())
}
