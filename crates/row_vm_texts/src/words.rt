//! The words of instructions.

use anyhow::{Result, bail};
use suifvm_ir::insn::{CompareOp, ShiftOp, VmBinaryOp, VmBuiltin, VmUnaryOp};
use suifvm_ir::types::{Alignment, MemoryType, VmType};

/// A type of registers.
pub fn register_type(word: &str) -> Result<VmType> {
    match word {
        "s32" => Ok(VmType::S32),
        "u32" => Ok(VmType::U32),
        "s64" => Ok(VmType::S64),
        "u64" => Ok(VmType::U64),
        "p64" => Ok(VmType::P64),
        _ => bail!("no type of registers: {word:?}"),
    }
}

/// A type of memory.
pub fn memory_type(word: &str) -> Result<MemoryType> {
    match word {
        "s8" => Ok(MemoryType::S8),
        "u8" => Ok(MemoryType::U8),
        "s16" => Ok(MemoryType::S16),
        "u16" => Ok(MemoryType::U16),
        "s32" => Ok(MemoryType::S32),
        "u32" => Ok(MemoryType::U32),
        "s64" => Ok(MemoryType::S64),
        "u64" => Ok(MemoryType::U64),
        "p64" => Ok(MemoryType::P64),
        _ => bail!("no type of memory: {word:?}"),
    }
}

/// An alignment in bytes.
pub fn alignment(bytes: u64) -> Result<Alignment> {
    match bytes {
        1 => Ok(Alignment::One),
        2 => Ok(Alignment::Two),
        4 => Ok(Alignment::Four),
        8 => Ok(Alignment::Eight),
        _ => bail!("no alignment: {bytes}"),
    }
}

/// An operation on one register, if it is one.
pub fn unary(word: &str) -> Option<VmUnaryOp> {
    match word {
        "mov" => Some(VmUnaryOp::Move),
        "neg" => Some(VmUnaryOp::Negate),
        "not" => Some(VmUnaryOp::Complement),
        _ => None,
    }
}

/// An operation on two registers, if it is one.
pub fn binary(word: &str) -> Option<VmBinaryOp> {
    match word {
        "add" => Some(VmBinaryOp::Add),
        "sub" => Some(VmBinaryOp::Subtract),
        "mul" => Some(VmBinaryOp::Multiply),
        "div" => Some(VmBinaryOp::Divide),
        "rem" => Some(VmBinaryOp::Remainder),
        "and" => Some(VmBinaryOp::And),
        "ior" => Some(VmBinaryOp::Or),
        "xor" => Some(VmBinaryOp::ExclusiveOr),
        _ => None,
    }
}

/// A shift, if it is one.
pub fn shift(word: &str) -> Option<ShiftOp> {
    match word {
        "asr" => Some(ShiftOp::ArithmeticRight),
        "lsl" => Some(ShiftOp::Left),
        "lsr" => Some(ShiftOp::LogicalRight),
        _ => None,
    }
}

/// A comparison, if it is one.
pub fn comparison(word: &str) -> Option<CompareOp> {
    match word {
        "seq" => Some(CompareOp::Equal),
        "sne" => Some(CompareOp::NotEqual),
        "sl" => Some(CompareOp::Less),
        "sle" => Some(CompareOp::LessOrEqual),
        _ => None,
    }
}

/// A built-in function, if it is one.
pub fn builtin(word: &str) -> Option<VmBuiltin> {
    match word {
        "putchar" => Some(VmBuiltin::PutChar),
        "getchar" => Some(VmBuiltin::GetChar),
        "abort" => Some(VmBuiltin::Abort),
        "exit" => Some(VmBuiltin::Exit),
        _ => None,
    }
}
