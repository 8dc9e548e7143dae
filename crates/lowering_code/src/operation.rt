//! What the operators of C become.

use suifvm_ir::insn::{CompareOp, ShiftOp, VmBinaryOp};

/// What is done with two registers of one type.
#[derive(Clone, Copy, Debug, PartialEq, Eq)]
pub enum RegisterOperation {
    Calculates(VmBinaryOp),
    Shifts(ShiftOp),
    Compares(CompareOp),
    /// A comparison with its operands the other way about.
    ComparesBack(CompareOp),
}
