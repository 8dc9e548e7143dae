//! The words of instructions.

use temp_ir::insn::FixedRegister;
use temp_ir::operation::{DivisionRoutine, ExtendOp, LoadOp, Operation, StoreOp, TempBranchOp};

/// A load, if it is one.
pub fn load(word: &str) -> Option<LoadOp> {
    match word {
        "ldbu" => Some(LoadOp::Ldbu),
        "ldwu" => Some(LoadOp::Ldwu),
        "ldl" => Some(LoadOp::Ldl),
        "ldq" => Some(LoadOp::Ldq),
        _ => None,
    }
}

/// A store, if it is one.
pub fn store(word: &str) -> Option<StoreOp> {
    match word {
        "stb" => Some(StoreOp::Stb),
        "stw" => Some(StoreOp::Stw),
        "stl" => Some(StoreOp::Stl),
        "stq" => Some(StoreOp::Stq),
        _ => None,
    }
}

/// A branch, if it is one.
pub fn branch(word: &str) -> Option<TempBranchOp> {
    match word {
        "blbc" => Some(TempBranchOp::Blbc),
        "beq" => Some(TempBranchOp::Beq),
        "blt" => Some(TempBranchOp::Blt),
        "ble" => Some(TempBranchOp::Ble),
        "blbs" => Some(TempBranchOp::Blbs),
        "bne" => Some(TempBranchOp::Bne),
        "bge" => Some(TempBranchOp::Bge),
        "bgt" => Some(TempBranchOp::Bgt),
        _ => None,
    }
}

/// A sign extension, if it is one.
pub fn extend(word: &str) -> Option<ExtendOp> {
    match word {
        "sextb" => Some(ExtendOp::Sextb),
        "sextw" => Some(ExtendOp::Sextw),
        _ => None,
    }
}

/// An operation on two words, if it is one that the rows have.
pub fn operation(word: &str) -> Option<Operation> {
    match word {
        "addl" => Some(Operation::Addl),
        "subl" => Some(Operation::Subl),
        "mull" => Some(Operation::Mull),
        "addl/v" => Some(Operation::AddlV),
        "subl/v" => Some(Operation::SublV),
        "mull/v" => Some(Operation::MullV),
        "addq" => Some(Operation::Addq),
        "subq" => Some(Operation::Subq),
        "mulq" => Some(Operation::Mulq),
        "addq/v" => Some(Operation::AddqV),
        "subq/v" => Some(Operation::SubqV),
        "mulq/v" => Some(Operation::MulqV),
        "cmpeq" => Some(Operation::Cmpeq),
        "cmplt" => Some(Operation::Cmplt),
        "cmple" => Some(Operation::Cmple),
        "cmpult" => Some(Operation::Cmpult),
        "cmpule" => Some(Operation::Cmpule),
        "and" => Some(Operation::And),
        "bic" => Some(Operation::Bic),
        "bis" => Some(Operation::Bis),
        "ornot" => Some(Operation::Ornot),
        "zapnot" => Some(Operation::Zapnot),
        "srl" => Some(Operation::Srl),
        "sll" => Some(Operation::Sll),
        "sra" => Some(Operation::Sra),
        "xor" => Some(Operation::Xor),
        _ => None,
    }
}

/// A division routine, if it is one.
pub fn routine(word: &str) -> Option<DivisionRoutine> {
    match word {
        "__divq" => Some(DivisionRoutine::Divq),
        "__remq" => Some(DivisionRoutine::Remq),
        "__divqu" => Some(DivisionRoutine::Divqu),
        "__remqu" => Some(DivisionRoutine::Remqu),
        "__divl" => Some(DivisionRoutine::Divl),
        "__reml" => Some(DivisionRoutine::Reml),
        "__divlu" => Some(DivisionRoutine::Divlu),
        "__remlu" => Some(DivisionRoutine::Remlu),
        _ => None,
    }
}

/// A fixed register, if it is one.
pub fn fixed_register(word: &str) -> Option<FixedRegister> {
    match word {
        "$0" => Some(FixedRegister::Value),
        "$16" => Some(FixedRegister::Argument0),
        "$17" => Some(FixedRegister::Argument1),
        "$18" => Some(FixedRegister::Argument2),
        "$19" => Some(FixedRegister::Argument3),
        "$20" => Some(FixedRegister::Argument4),
        "$21" => Some(FixedRegister::Argument5),
        "$24" => Some(FixedRegister::Dividend),
        "$25" => Some(FixedRegister::Divisor),
        "$27" => Some(FixedRegister::Answer),
        _ => None,
    }
}
