//! The words of instructions.

ghost use Rattle.std.specs.Prelude.{◌≡◌};
ghost use Rattle.suifvm_ir.specs.Text as text;
ghost use Rattle.suifvm_ir.specs.Programs.{alignment_bytes};

use crate::insn::{CompareOp, ShiftOp, VmBinaryOp, VmBranchOp, VmBuiltin, VmUnaryOp};
use crate::types::{Alignment, MemoryType, VmType};

/// The word of a type of registers.
pub fn type_word(ty: VmType) -> &'static str
    ensures { result.now ≡ text.type_word ty }
{
    match ty {
        VmType::S32 => "s32",
        VmType::U32 => "u32",
        VmType::S64 => "s64",
        VmType::U64 => "u64",
        VmType::P64 => "p64",
    }
}

/// The word of a type of memory.
pub fn memory_word(ty: MemoryType) -> &'static str
    ensures { result.now ≡ text.memory_type_word ty }
{
    match ty {
        MemoryType::S8 => "s8",
        MemoryType::U8 => "u8",
        MemoryType::S16 => "s16",
        MemoryType::U16 => "u16",
        MemoryType::S32 => "s32",
        MemoryType::U32 => "u32",
        MemoryType::S64 => "s64",
        MemoryType::U64 => "u64",
        MemoryType::P64 => "p64",
    }
}

/// The word of an operation on one register.
pub fn unary_word(op: VmUnaryOp) -> &'static str
    ensures { result.now ≡ text.unary_word op }
{
    match op {
        VmUnaryOp::Move => "mov",
        VmUnaryOp::Negate => "neg",
        VmUnaryOp::Complement => "not",
    }
}

/// The word of an operation on two registers.
pub fn binary_word(op: VmBinaryOp) -> &'static str
    ensures { result.now ≡ text.binary_word op }
{
    match op {
        VmBinaryOp::Add => "add",
        VmBinaryOp::Subtract => "sub",
        VmBinaryOp::Multiply => "mul",
        VmBinaryOp::Divide => "div",
        VmBinaryOp::Remainder => "rem",
        VmBinaryOp::And => "and",
        VmBinaryOp::Or => "ior",
        VmBinaryOp::ExclusiveOr => "xor",
    }
}

/// The word of a shift.
pub fn shift_word(op: ShiftOp) -> &'static str
    ensures { result.now ≡ text.shift_word op }
{
    match op {
        ShiftOp::ArithmeticRight => "asr",
        ShiftOp::Left => "lsl",
        ShiftOp::LogicalRight => "lsr",
    }
}

/// The word of a comparison.
pub fn compare_word(op: CompareOp) -> &'static str
    ensures { result.now ≡ text.compare_word op }
{
    match op {
        CompareOp::Equal => "seq",
        CompareOp::NotEqual => "sne",
        CompareOp::Less => "sl",
        CompareOp::LessOrEqual => "sle",
    }
}

/// The word of a branch.
pub fn branch_word(op: VmBranchOp) -> &'static str
    ensures { result.now ≡ text.branch_word op }
{
    match op {
        VmBranchOp::IfTrue => "btrue",
        VmBranchOp::IfFalse => "bfalse",
    }
}

/// The name of a built-in function.
pub fn builtin_word(builtin: VmBuiltin) -> &'static str
    ensures { result.now ≡ text.builtin_word builtin }
{
    match builtin {
        VmBuiltin::PutChar => "putchar",
        VmBuiltin::GetChar => "getchar",
        VmBuiltin::Abort => "abort",
        VmBuiltin::Exit => "exit",
    }
}

impl Alignment {
    /// The alignment in bytes.
    pub fn bytes(self) -> u32
        ensures { result ≡ alignment_bytes self }
    {
        match self {
            Alignment::One => 1,
            Alignment::Two => 2,
            Alignment::Four => 4,
            Alignment::Eight => 8,
        }
    }
}
