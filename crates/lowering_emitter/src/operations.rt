//! What the operators of C become: operations on two registers of one type. No call takes memory.

ghost use Rattle.std.specs.Prelude.{◌≡◌, option_map};
ghost use Rattle.c_typed_tree.specs.View.{type_view};
ghost use Rattle.c_semantics.specs.Objects.{integer_or_word};
ghost use Rattle.c_semantics.specs.Operators.{operator_of, operation_type, step_operator, one_type};
ghost use Rattle.lowering_code.specs.Expressions.{operation_of, right_shift_kind, operation_insn, element_of, is_signed_type, plain_of, alignment_of};

use bk_arithmetic::integer_type::IntegerType;
use c_tree::{AssignOp, BinaryOp, StepOp};
use c_typed_tree::CType;
use lowering_code::RegisterOperation;
use suifvm_ir::insn::{CompareOp, ShiftOp, VmBinaryOp as Calculation, VmInsn};
use suifvm_ir::types::{Alignment, VmType};

/// What an operator between integers, or a comparison of pointers, becomes.
pub fn operation_of(op: BinaryOp, signed: bool) -> RegisterOperation
    ensures { result ≡ operation_of op signed }
{
    match op {
        BinaryOp::LogicalOr | BinaryOp::Or => RegisterOperation::Calculates(Calculation::Or),
        BinaryOp::LogicalAnd | BinaryOp::And => RegisterOperation::Calculates(Calculation::And),
        BinaryOp::Xor => RegisterOperation::Calculates(Calculation::ExclusiveOr),
        BinaryOp::Equal => RegisterOperation::Compares(CompareOp::Equal),
        BinaryOp::NotEqual => RegisterOperation::Compares(CompareOp::NotEqual),
        BinaryOp::Less => RegisterOperation::Compares(CompareOp::Less),
        BinaryOp::Greater => RegisterOperation::ComparesBack(CompareOp::Less),
        BinaryOp::LessEqual => RegisterOperation::Compares(CompareOp::LessOrEqual),
        BinaryOp::GreaterEqual => RegisterOperation::ComparesBack(CompareOp::LessOrEqual),
        BinaryOp::ShiftLeft => RegisterOperation::Shifts(ShiftOp::Left),
        BinaryOp::ShiftRight => RegisterOperation::Shifts(right_shift(signed)),
        BinaryOp::Add => RegisterOperation::Calculates(Calculation::Add),
        BinaryOp::Subtract => RegisterOperation::Calculates(Calculation::Subtract),
        BinaryOp::Multiply => RegisterOperation::Calculates(Calculation::Multiply),
        BinaryOp::Divide => RegisterOperation::Calculates(Calculation::Divide),
        BinaryOp::Remainder => RegisterOperation::Calculates(Calculation::Remainder),
    }
}

fn right_shift(signed: bool) -> ShiftOp
    ensures { result ≡ right_shift_kind signed }
{
    if signed {
        ShiftOp::ArithmeticRight
    } else {
        ShiftOp::LogicalRight
    }
}

/// The instruction of an operation in registers of a type.
pub fn operation_insn(
    operation: RegisterOperation,
    ty: VmType,
    destination: u32,
    left: u32,
    right: u32,
) -> VmInsn
    ensures { result ≡ operation_insn operation ty destination left right }
{
    match operation {
        RegisterOperation::Calculates(op) => VmInsn::Binary {
            op,
            ty,
            destination,
            left,
            right,
        },
        RegisterOperation::Shifts(op) => VmInsn::Shift {
            op,
            ty,
            destination,
            source: left,
            count: right,
        },
        RegisterOperation::Compares(op) => VmInsn::Compare {
            op,
            ty,
            destination,
            left,
            right,
        },
        RegisterOperation::ComparesBack(op) => VmInsn::Compare {
            op,
            ty,
            destination,
            left: right,
            right: left,
        },
    }
}

/// What a pointer points to.
#[tactic(auto, unfolding(c_typed_tree::specs::model::View::opens))]
pub fn element_of(ty: &CType) -> Option<&CType>
    ensures { option_map (λ t. type_view t.now) result ≡ element_of (type_view ty.now) }
{
    match ty {
        CType::Pointer(element) => Some(element),
        CType::Void => None,
        CType::Int { .. } => None,
        CType::Array(_, _) => None,
        CType::Struct(_) => None,
    }
}

/// The type is an integer type whose numbers have signs.
#[tactic(auto, unfolding(c_typed_tree::specs::model::View::opens))]
pub fn is_signed_type(ty: &CType) -> bool
    ensures { result ≡ is_signed_type (type_view ty.now) }
{
    match ty {
        CType::Int { signed, .. } => *signed,
        CType::Void => false,
        CType::Pointer(_) => false,
        CType::Array(_, _) => false,
        CType::Struct(_) => false,
    }
}

/// The integer type of a type; what is none has the type of a word.
#[tactic(auto, unfolding(c_typed_tree::specs::model::View::opens))]
pub fn integer_of(ty: &CType) -> IntegerType
    ensures { result ≡ integer_or_word (type_view ty.now) }
{
    match ty {
        CType::Int { bytes, signed } => {
            IntegerType::from_parts(*bytes, *signed).unwrap_or(IntegerType::UnsignedLong)
        }
        CType::Void => IntegerType::UnsignedLong,
        CType::Pointer(_) => IntegerType::UnsignedLong,
        CType::Array(_, _) => IntegerType::UnsignedLong,
        CType::Struct(_) => IntegerType::UnsignedLong,
    }
}

/// An integer type as a type.
#[tactic(auto, unfolding(c_typed_tree::specs::model::View::opens))]
pub fn plain_of(t: IntegerType) -> CType
    ensures { type_view result ≡ plain_of t }
{
    CType::Int {
        bytes: t.bytes(),
        signed: t.is_signed(),
    }
}

/// The type in which the operator of a compound assignment is done.
pub fn operation_type(op: BinaryOp, left: IntegerType, right: IntegerType) -> IntegerType
    ensures { result ≡ operation_type op left right }
{
    match op {
        BinaryOp::ShiftLeft | BinaryOp::ShiftRight => left.promote(),
        BinaryOp::LogicalOr
        | BinaryOp::LogicalAnd
        | BinaryOp::Or
        | BinaryOp::Xor
        | BinaryOp::And
        | BinaryOp::Equal
        | BinaryOp::NotEqual
        | BinaryOp::Less
        | BinaryOp::Greater
        | BinaryOp::LessEqual
        | BinaryOp::GreaterEqual
        | BinaryOp::Add
        | BinaryOp::Subtract
        | BinaryOp::Multiply
        | BinaryOp::Divide
        | BinaryOp::Remainder => right,
    }
}

/// The operator of a compound assignment, if it is one.
pub fn operator_of(op: AssignOp) -> Option<BinaryOp>
    ensures { result ≡ operator_of op }
{
    match op {
        AssignOp::Set => None,
        AssignOp::Multiply => Some(BinaryOp::Multiply),
        AssignOp::Divide => Some(BinaryOp::Divide),
        AssignOp::Remainder => Some(BinaryOp::Remainder),
        AssignOp::Add => Some(BinaryOp::Add),
        AssignOp::Subtract => Some(BinaryOp::Subtract),
        AssignOp::ShiftLeft => Some(BinaryOp::ShiftLeft),
        AssignOp::ShiftRight => Some(BinaryOp::ShiftRight),
        AssignOp::And => Some(BinaryOp::And),
        AssignOp::Xor => Some(BinaryOp::Xor),
        AssignOp::Or => Some(BinaryOp::Or),
    }
}

/// What `++` and `--` do with 1.
pub fn step_operator(op: StepOp) -> BinaryOp
    ensures { result ≡ step_operator op }
{
    match op {
        StepOp::Increment => BinaryOp::Add,
        StepOp::Decrement => BinaryOp::Subtract,
    }
}

/// The type of the 1 that `++` and `--` add.
#[tactic(auto, unfolding(c_typed_tree::specs::model::View::opens))]
pub fn one_type(ty: &CType) -> CType
    ensures { type_view result ≡ one_type (type_view ty.now) }
{
    match ty {
        CType::Int { .. } => plain_of(integer_of(ty).promote()),
        CType::Void => plain_of(IntegerType::Int),
        CType::Pointer(_) => plain_of(IntegerType::Int),
        CType::Array(_, _) => plain_of(IntegerType::Int),
        CType::Struct(_) => plain_of(IntegerType::Int),
    }
}

/// An alignment in bytes, as a copy has it.
pub fn alignment_of(bytes: u64) -> Alignment
    ensures { result ≡ alignment_of bytes }
{
    match bytes {
        1 => Alignment::One,
        2 => Alignment::Two,
        4 => Alignment::Four,
        _ => Alignment::Eight,
    }
}
