//! The code of operations on the values of registers.

ghost use Rattle.std.specs.Prelude.{◌≡◌, [], ◌∷◌, ◌++◌, OnOk};
ghost use Rattle.selection_forms.specs.alpha_forms.Operations as operations;

use pass_core::block::Block;
use std::alloc::AllocError;
use suifvm_ir::insn::{CompareOp, ShiftOp, VmBinaryOp, VmBranchOp, VmUnaryOp};
use suifvm_ir::types::{MemoryType, VmType};
use temp_ir::insn::{FirstOperand, FixedRegister, SecondOperand, TempInsn};
use temp_ir::operation::{DivisionRoutine, ExtendOp, Operation};

/// The temporary that is used within the code of one instruction.
pub(crate) const SCRATCH: u32 = 0;

/// An operation on two temporaries.
pub(crate) fn on_two(op: Operation, destination: u32, left: u32, right: u32) -> TempInsn
    ensures { result ≡ operations.on_two op destination left right }
{
    TempInsn::Operate {
        op,
        destination,
        left: FirstOperand::Temp(left),
        right: SecondOperand::Temp(right),
    }
}

/// An operation on a temporary and a number.
fn on_number(op: Operation, destination: u32, left: u32, number: u8) -> TempInsn
    ensures { result ≡ operations.on_literal op destination left number }
{
    TempInsn::Operate {
        op,
        destination,
        left: FirstOperand::Temp(left),
        right: SecondOperand::Literal(number),
    }
}

/// An operation on zero and a temporary.
fn on_zero(op: Operation, destination: u32, source: u32) -> TempInsn
    ensures { result ≡ operations.on_zero op destination source }
{
    TempInsn::Operate {
        op,
        destination,
        left: FirstOperand::Zero,
        right: SecondOperand::Temp(source),
    }
}

/// The low 32 bits of a temporary with their sign above them.
fn extended_long(destination: u32, source: u32) -> TempInsn
    ensures { result ≡ operations.extended_long destination source }
{
    on_number(Operation::Addl, destination, source, 0)
}

/// Whether a type has 4 bytes.
fn is_narrow(ty: VmType) -> bool
    ensures { result ≡ operations.is_narrow ty }
{
    match ty {
        VmType::S32 => true,
        VmType::U32 => true,
        VmType::S64 => false,
        VmType::U64 => false,
        VmType::P64 => false,
    }
}

/// The operation of a sum.
fn sum_op(ty: VmType) -> Operation
    ensures { result ≡ operations.sum_op ty }
{
    match ty {
        VmType::S32 => Operation::AddlV,
        VmType::U32 => Operation::Addl,
        VmType::S64 => Operation::AddqV,
        VmType::U64 => Operation::Addq,
        VmType::P64 => Operation::Addq,
    }
}

/// The operation of a difference.
fn difference_op(ty: VmType) -> Operation
    ensures { result ≡ operations.difference_op ty }
{
    match ty {
        VmType::S32 => Operation::SublV,
        VmType::U32 => Operation::Subl,
        VmType::S64 => Operation::SubqV,
        VmType::U64 => Operation::Subq,
        VmType::P64 => Operation::Subq,
    }
}

/// The operation of a product.
fn product_op(ty: VmType) -> Operation
    ensures { result ≡ operations.product_op ty }
{
    match ty {
        VmType::S32 => Operation::MullV,
        VmType::U32 => Operation::Mull,
        VmType::S64 => Operation::MulqV,
        VmType::U64 => Operation::Mulq,
        VmType::P64 => Operation::Mulq,
    }
}

/// The routine of a quotient.
fn quotient_routine(ty: VmType) -> DivisionRoutine
    ensures { result ≡ operations.quotient_routine ty }
{
    match ty {
        VmType::S32 => DivisionRoutine::Divl,
        VmType::U32 => DivisionRoutine::Divlu,
        VmType::S64 => DivisionRoutine::Divq,
        VmType::U64 => DivisionRoutine::Divqu,
        VmType::P64 => DivisionRoutine::Divqu,
    }
}

/// The routine of a remainder.
fn remainder_routine(ty: VmType) -> DivisionRoutine
    ensures { result ≡ operations.remainder_routine ty }
{
    match ty {
        VmType::S32 => DivisionRoutine::Reml,
        VmType::U32 => DivisionRoutine::Remlu,
        VmType::S64 => DivisionRoutine::Remq,
        VmType::U64 => DivisionRoutine::Remqu,
        VmType::P64 => DivisionRoutine::Remqu,
    }
}

/// Puts a copy, a negation or a complement.
pub fn put_unary(
    out: &mut Block<TempInsn>,
    op: VmUnaryOp,
    ty: VmType,
    destination: u32,
    source: u32,
) -> Result<(), AllocError>
    ensures { OnOk result (out.new ≡ out.old ++ operations.unary_items op ty destination source) }
{
    let op = match op {
        VmUnaryOp::Move => Operation::Bis,
        VmUnaryOp::Negate => difference_op(ty),
        VmUnaryOp::Complement => Operation::Ornot,
    };
    out.push(on_zero(op, destination, source))
}

/// Puts the call of a division routine.
fn put_division(
    out: &mut Block<TempInsn>,
    routine: DivisionRoutine,
    destination: u32,
    left: u32,
    right: u32,
) -> Result<(), AllocError>
    ensures { OnOk result (out.new ≡ out.old ++ operations.division_items routine destination left right) }
{
    out.push(TempInsn::ToFixed {
        register: FixedRegister::Dividend,
        source: left,
    })?;
    out.push(TempInsn::ToFixed {
        register: FixedRegister::Divisor,
        source: right,
    })?;
    out.push(TempInsn::Divide { routine })?;
    out.push(TempInsn::FromFixed {
        destination,
        register: FixedRegister::Answer,
    })
}

/// Puts an operation on two registers.
pub fn put_binary(
    out: &mut Block<TempInsn>,
    op: VmBinaryOp,
    ty: VmType,
    destination: u32,
    left: u32,
    right: u32,
) -> Result<(), AllocError>
    ensures { OnOk result (out.new ≡ out.old ++ operations.binary_items op ty destination left right) }
{
    match op {
        VmBinaryOp::Add => out.push(on_two(sum_op(ty), destination, left, right)),
        VmBinaryOp::Subtract => out.push(on_two(difference_op(ty), destination, left, right)),
        VmBinaryOp::Multiply => out.push(on_two(product_op(ty), destination, left, right)),
        VmBinaryOp::Divide => put_division(out, quotient_routine(ty), destination, left, right),
        VmBinaryOp::Remainder => put_division(out, remainder_routine(ty), destination, left, right),
        VmBinaryOp::And => out.push(on_two(Operation::And, destination, left, right)),
        VmBinaryOp::Or => out.push(on_two(Operation::Bis, destination, left, right)),
        VmBinaryOp::ExclusiveOr => out.push(on_two(Operation::Xor, destination, left, right)),
    }
}

/// Puts a shift to the left.
fn put_left(
    out: &mut Block<TempInsn>,
    narrow: bool,
    destination: u32,
    source: u32,
    count: u32,
) -> Result<(), AllocError>
    ensures { OnOk result (out.new ≡ out.old ++ operations.left_items narrow destination source count) }
{
    if narrow {
        out.push(on_two(Operation::Sll, SCRATCH, source, count))?;
        out.push(extended_long(destination, SCRATCH))
    } else {
        out.push(on_two(Operation::Sll, destination, source, count))
    }
}

/// Puts a shift to the right with zeros.
fn put_logical_right(
    out: &mut Block<TempInsn>,
    narrow: bool,
    destination: u32,
    source: u32,
    count: u32,
) -> Result<(), AllocError>
    ensures { OnOk result (out.new ≡ out.old ++ operations.logical_right_items narrow destination source count) }
{
    if narrow {
        out.push(on_number(Operation::Zapnot, SCRATCH, source, 15))?;
        out.push(on_two(Operation::Srl, SCRATCH, SCRATCH, count))?;
        out.push(extended_long(destination, SCRATCH))
    } else {
        out.push(on_two(Operation::Srl, destination, source, count))
    }
}

/// Puts a shift.
pub fn put_shift(
    out: &mut Block<TempInsn>,
    op: ShiftOp,
    ty: VmType,
    destination: u32,
    source: u32,
    count: u32,
) -> Result<(), AllocError>
    ensures { OnOk result (out.new ≡ out.old ++ operations.shift_items op ty destination source count) }
{
    match op {
        ShiftOp::ArithmeticRight => out.push(on_two(Operation::Sra, destination, source, count)),
        ShiftOp::Left => put_left(out, is_narrow(ty), destination, source, count),
        ShiftOp::LogicalRight => put_logical_right(out, is_narrow(ty), destination, source, count),
    }
}

/// Whether a type has no sign; pointers have none.
fn is_unsigned(ty: VmType) -> bool
    ensures { result ≡ operations.is_unsigned ty }
{
    match ty {
        VmType::S32 => false,
        VmType::U32 => true,
        VmType::S64 => false,
        VmType::U64 => true,
        VmType::P64 => true,
    }
}

/// The operation of `<`.
fn less_op(unsigned: bool) -> Operation
    ensures { result ≡ operations.less_op unsigned }
{
    if unsigned {
        Operation::Cmpult
    } else {
        Operation::Cmplt
    }
}

/// The operation of `<=`.
fn less_or_equal_op(unsigned: bool) -> Operation
    ensures { result ≡ operations.less_or_equal_op unsigned }
{
    if unsigned {
        Operation::Cmpule
    } else {
        Operation::Cmple
    }
}

/// Puts a comparison.
pub fn put_compare(
    out: &mut Block<TempInsn>,
    op: CompareOp,
    ty: VmType,
    destination: u32,
    left: u32,
    right: u32,
) -> Result<(), AllocError>
    ensures { OnOk result (out.new ≡ out.old ++ operations.compare_items op ty destination left right) }
{
    match op {
        CompareOp::Equal => out.push(on_two(Operation::Cmpeq, destination, left, right)),
        CompareOp::NotEqual => {
            out.push(on_two(Operation::Cmpeq, SCRATCH, left, right))?;
            out.push(on_number(Operation::Cmpeq, destination, SCRATCH, 0))
        }
        CompareOp::Less => {
            let op = less_op(is_unsigned(ty));
            out.push(on_two(op, destination, left, right))
        }
        CompareOp::LessOrEqual => {
            let op = less_or_equal_op(is_unsigned(ty));
            out.push(on_two(op, destination, left, right))
        }
    }
}

/// The operation of a branch.
pub fn branch_op(op: VmBranchOp) -> temp_ir::operation::TempBranchOp
    ensures { result ≡ operations.temp_branch op }
{
    match op {
        VmBranchOp::IfTrue => temp_ir::operation::TempBranchOp::Bne,
        VmBranchOp::IfFalse => temp_ir::operation::TempBranchOp::Beq,
    }
}

/// The conversion of an unsigned number of 32 bits.
fn from_unsigned(narrow: bool, destination: u32, source: u32) -> TempInsn
    ensures { result ≡ operations.from_unsigned_item narrow destination source }
{
    if narrow {
        extended_long(destination, source)
    } else {
        on_number(Operation::Zapnot, destination, source, 15)
    }
}

/// The conversion of a number of 64 bits.
fn from_wide(narrow: bool, destination: u32, source: u32) -> TempInsn
    ensures { result ≡ operations.from_wide_item narrow destination source }
{
    if narrow {
        extended_long(destination, source)
    } else {
        on_zero(Operation::Bis, destination, source)
    }
}

/// A conversion.
fn convert(from: MemoryType, to: VmType, destination: u32, source: u32) -> TempInsn
    ensures { result ≡ operations.convert_item from to destination source }
{
    match from {
        MemoryType::S8 => TempInsn::Extend {
            op: ExtendOp::Sextb,
            destination,
            source: SecondOperand::Temp(source),
        },
        MemoryType::U8 => on_number(Operation::Zapnot, destination, source, 1),
        MemoryType::S16 => TempInsn::Extend {
            op: ExtendOp::Sextw,
            destination,
            source: SecondOperand::Temp(source),
        },
        MemoryType::U16 => on_number(Operation::Zapnot, destination, source, 3),
        MemoryType::S32 => extended_long(destination, source),
        MemoryType::U32 => from_unsigned(is_narrow(to), destination, source),
        MemoryType::S64 => from_wide(is_narrow(to), destination, source),
        MemoryType::U64 => from_wide(is_narrow(to), destination, source),
        MemoryType::P64 => from_wide(is_narrow(to), destination, source),
    }
}

/// Puts a conversion.
pub fn put_convert(
    out: &mut Block<TempInsn>,
    from: MemoryType,
    to: VmType,
    destination: u32,
    source: u32,
) -> Result<(), AllocError>
    ensures { OnOk result (out.new ≡ out.old ++ operations.convert_items from to destination source) }
{
    out.push(convert(from, to, destination, source))
}
