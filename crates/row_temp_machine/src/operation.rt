//! What operations do with words.

use anyhow::{Result, bail};
use temp_ir::operation::{DivisionRoutine, ExtendOp, Operation, TempBranchOp};

/// What comes of an operation on words.
#[derive(Clone, Copy, Debug)]
pub enum OperationOutcome {
    Word(u64),
    Trap(u64),
}

/// A truth value as a word.
fn truth(holds: bool) -> OperationOutcome {
    OperationOutcome::Word(u64::from(holds))
}

/// A signed number that has to fit in 64 bits.
fn word_or_overflow(number: Option<i64>) -> OperationOutcome {
    match number {
        None => OperationOutcome::Trap(3),
        Some(number) => OperationOutcome::Word(number.cast_unsigned()),
    }
}

/// The signed number that the low 32 bits are.
pub fn low(word: u64) -> i32 {
    ((word & 0xffff_ffff) as u32).cast_signed()
}

/// The low 32 bits with their sign in all bits above them.
fn sign_extension(word: u64) -> u64 {
    i64::from(low(word)).cast_unsigned()
}

/// A signed number that has to fit in 32 bits.
fn checked_low(number: Option<i32>) -> OperationOutcome {
    match number {
        None => OperationOutcome::Trap(3),
        Some(number) => OperationOutcome::Word(i64::from(number).cast_unsigned()),
    }
}

/// The bytes of a word that a number of eight bits names, and zero in the others.
fn kept_bytes(word: u64, bytes: u64) -> u64 {
    let mut mask = 0_u64;
    for byte in 0_u64..8 {
        if bytes >> byte & 1 == 1 {
            mask |= 0xff << (8 * byte);
        }
    }
    word & mask
}

/// An operation on two words, if it is one that the rows have.
pub fn operate(op: Operation, a: u64, b: u64) -> Result<OperationOutcome> {
    let (x, y) = (a.cast_signed(), b.cast_signed());
    let outcome = match op {
        Operation::Addl => OperationOutcome::Word(sign_extension(a.wrapping_add(b))),
        Operation::Subl => OperationOutcome::Word(sign_extension(a.wrapping_sub(b))),
        Operation::Mull => OperationOutcome::Word(sign_extension(a.wrapping_mul(b))),
        Operation::AddlV => checked_low(low(a).checked_add(low(b))),
        Operation::SublV => checked_low(low(a).checked_sub(low(b))),
        Operation::MullV => checked_low(low(a).checked_mul(low(b))),
        Operation::Ornot => OperationOutcome::Word(a | !b),
        Operation::Zapnot => OperationOutcome::Word(kept_bytes(a, b)),
        Operation::Srl => OperationOutcome::Word(a >> (b & 63)),
        Operation::Sll => OperationOutcome::Word(a << (b & 63)),
        Operation::Sra => OperationOutcome::Word((x >> (b & 63)).cast_unsigned()),
        Operation::Addq => OperationOutcome::Word(a.wrapping_add(b)),
        Operation::Subq => OperationOutcome::Word(a.wrapping_sub(b)),
        Operation::Mulq => OperationOutcome::Word(a.wrapping_mul(b)),
        Operation::AddqV => word_or_overflow(x.checked_add(y)),
        Operation::SubqV => word_or_overflow(x.checked_sub(y)),
        Operation::MulqV => word_or_overflow(x.checked_mul(y)),
        Operation::Cmpeq => truth(a == b),
        Operation::Cmplt => truth(x < y),
        Operation::Cmple => truth(x <= y),
        Operation::Cmpult => truth(a < b),
        Operation::Cmpule => truth(a <= b),
        Operation::And => OperationOutcome::Word(a & b),
        Operation::Bic => OperationOutcome::Word(a & !b),
        Operation::Bis => OperationOutcome::Word(a | b),
        Operation::Xor => OperationOutcome::Word(a ^ b),
        _ => bail!("the rows have no {op:?}"),
    };
    Ok(outcome)
}

/// A byte or the low 16 bits, with their sign in all bits above them.
pub fn extend(op: ExtendOp, word: u64) -> u64 {
    match op {
        ExtendOp::Sextb => i64::from(((word & 0xff) as u8).cast_signed()).cast_unsigned(),
        ExtendOp::Sextw => i64::from(((word & 0xffff) as u16).cast_signed()).cast_unsigned(),
    }
}

/// What a division routine answers.
pub fn divide(routine: DivisionRoutine, a: u64, b: u64) -> Result<OperationOutcome> {
    if b == 0 {
        return Ok(OperationOutcome::Trap(1));
    }
    match routine {
        DivisionRoutine::Divqu => Ok(OperationOutcome::Word(a / b)),
        DivisionRoutine::Remqu => Ok(OperationOutcome::Word(a % b)),
        DivisionRoutine::Divq => Ok(word_or_overflow(a.cast_signed().checked_div(b.cast_signed()))),
        DivisionRoutine::Remq => Ok(word_or_overflow(a.cast_signed().checked_rem(b.cast_signed()))),
        DivisionRoutine::Divl => Ok(checked_low(low(a).checked_div(low(b)))),
        DivisionRoutine::Reml => Ok(checked_low(low(a).checked_rem(low(b)))),
        DivisionRoutine::Divlu => Ok(OperationOutcome::Word(sign_extension(
            (a & 0xffff_ffff).checked_div(b & 0xffff_ffff).unwrap_or(0),
        ))),
        DivisionRoutine::Remlu => Ok(OperationOutcome::Word(sign_extension(
            (a & 0xffff_ffff).checked_rem(b & 0xffff_ffff).unwrap_or(0),
        ))),
    }
}

/// Whether a word passes the test of a branch.
pub fn passes(op: TempBranchOp, word: u64) -> bool {
    let number = word.cast_signed();
    match op {
        TempBranchOp::Blbc => word % 2 == 0,
        TempBranchOp::Beq => number == 0,
        TempBranchOp::Blt => number < 0,
        TempBranchOp::Ble => number <= 0,
        TempBranchOp::Blbs => word % 2 == 1,
        TempBranchOp::Bne => number != 0,
        TempBranchOp::Bge => number >= 0,
        TempBranchOp::Bgt => number > 0,
    }
}
