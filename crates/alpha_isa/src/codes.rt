//! The numbers that stand for the operations in a word: the table of opcodes and function codes.

ghost use Rattle.std.specs.Prelude.{◌≡◌};
ghost use Rattle.alpha_isa.specs.Codes.{memory_code, branch_code, jump_code, operate_opcode, operate_function, memory_at, branch_at, jump_at, operate_at};

use crate::insn::{BranchOp, JumpOp, MemoryOp, OperateOp};

pub(crate) fn memory_opcode(op: MemoryOp) -> u32
    ensures { result ≡ memory_code op }
{
    match op {
        MemoryOp::Lda => 0x08,
        MemoryOp::Ldah => 0x09,
        MemoryOp::Ldbu => 0x0a,
        MemoryOp::Ldwu => 0x0c,
        MemoryOp::Stw => 0x0d,
        MemoryOp::Stb => 0x0e,
        MemoryOp::Ldl => 0x28,
        MemoryOp::Ldq => 0x29,
        MemoryOp::Stl => 0x2c,
        MemoryOp::Stq => 0x2d,
    }
}

pub(crate) fn branch_opcode(op: BranchOp) -> u32
    ensures { result ≡ branch_code op }
{
    match op {
        BranchOp::Br => 0x30,
        BranchOp::Bsr => 0x34,
        BranchOp::Blbc => 0x38,
        BranchOp::Beq => 0x39,
        BranchOp::Blt => 0x3a,
        BranchOp::Ble => 0x3b,
        BranchOp::Blbs => 0x3c,
        BranchOp::Bne => 0x3d,
        BranchOp::Bge => 0x3e,
        BranchOp::Bgt => 0x3f,
    }
}

pub(crate) fn jump_kind(op: JumpOp) -> u32
    ensures { result ≡ jump_code op }
{
    match op {
        JumpOp::Jmp => 0x00,
        JumpOp::Jsr => 0x01,
        JumpOp::Ret => 0x02,
    }
}

/// The opcode and the function code of an operation.
pub(crate) fn operate_codes(op: OperateOp) -> (u32, u32)
    ensures opcode { result.0 ≡ operate_opcode op }
    ensures function { result.1 ≡ operate_function op }
{
    match op {
        OperateOp::Addl => (0x10, 0x00),
        OperateOp::Subl => (0x10, 0x09),
        OperateOp::Cmpult => (0x10, 0x1d),
        OperateOp::Addq => (0x10, 0x20),
        OperateOp::S4addq => (0x10, 0x22),
        OperateOp::Subq => (0x10, 0x29),
        OperateOp::Cmpeq => (0x10, 0x2d),
        OperateOp::S8addq => (0x10, 0x32),
        OperateOp::Cmpule => (0x10, 0x3d),
        OperateOp::AddlV => (0x10, 0x40),
        OperateOp::SublV => (0x10, 0x49),
        OperateOp::Cmplt => (0x10, 0x4d),
        OperateOp::AddqV => (0x10, 0x60),
        OperateOp::SubqV => (0x10, 0x69),
        OperateOp::Cmple => (0x10, 0x6d),
        OperateOp::And => (0x11, 0x00),
        OperateOp::Bic => (0x11, 0x08),
        OperateOp::Bis => (0x11, 0x20),
        OperateOp::Cmoveq => (0x11, 0x24),
        OperateOp::Cmovne => (0x11, 0x26),
        OperateOp::Ornot => (0x11, 0x28),
        OperateOp::Xor => (0x11, 0x40),
        OperateOp::Eqv => (0x11, 0x48),
        OperateOp::Zapnot => (0x12, 0x31),
        OperateOp::Srl => (0x12, 0x34),
        OperateOp::Sll => (0x12, 0x39),
        OperateOp::Sra => (0x12, 0x3c),
        OperateOp::Mull => (0x13, 0x00),
        OperateOp::Mulq => (0x13, 0x20),
        OperateOp::Umulh => (0x13, 0x30),
        OperateOp::MullV => (0x13, 0x40),
        OperateOp::MulqV => (0x13, 0x60),
        OperateOp::Sextb => (0x1c, 0x00),
        OperateOp::Sextw => (0x1c, 0x01),
    }
}

#[tactic(auto, unfolding(crate::specs::Codes::memory_at))]
pub(crate) fn memory_op(opcode: u32) -> Option<MemoryOp>
    ensures { result ≡ memory_at opcode }
{
    match opcode {
        0x08 => Some(MemoryOp::Lda),
        0x09 => Some(MemoryOp::Ldah),
        0x0a => Some(MemoryOp::Ldbu),
        0x0c => Some(MemoryOp::Ldwu),
        0x0d => Some(MemoryOp::Stw),
        0x0e => Some(MemoryOp::Stb),
        0x28 => Some(MemoryOp::Ldl),
        0x29 => Some(MemoryOp::Ldq),
        0x2c => Some(MemoryOp::Stl),
        0x2d => Some(MemoryOp::Stq),
        _ => None,
    }
}

#[tactic(auto, unfolding(crate::specs::Codes::branch_at))]
pub(crate) fn branch_op(opcode: u32) -> Option<BranchOp>
    ensures { result ≡ branch_at opcode }
{
    match opcode {
        0x30 => Some(BranchOp::Br),
        0x34 => Some(BranchOp::Bsr),
        0x38 => Some(BranchOp::Blbc),
        0x39 => Some(BranchOp::Beq),
        0x3a => Some(BranchOp::Blt),
        0x3b => Some(BranchOp::Ble),
        0x3c => Some(BranchOp::Blbs),
        0x3d => Some(BranchOp::Bne),
        0x3e => Some(BranchOp::Bge),
        0x3f => Some(BranchOp::Bgt),
        _ => None,
    }
}

#[tactic(auto, unfolding(crate::specs::Codes::jump_at))]
pub(crate) fn jump_op(kind: u32) -> Option<JumpOp>
    ensures { result ≡ jump_at kind }
{
    match kind {
        0x00 => Some(JumpOp::Jmp),
        0x01 => Some(JumpOp::Jsr),
        0x02 => Some(JumpOp::Ret),
        _ => None,
    }
}

#[tactic(auto, unfolding(crate::specs::Codes::operate_at))]
pub(crate) fn operate_op(opcode: u32, function: u32) -> Option<OperateOp>
    ensures { result ≡ operate_at opcode function }
{
    match (opcode, function) {
        (0x10, 0x00) => Some(OperateOp::Addl),
        (0x10, 0x09) => Some(OperateOp::Subl),
        (0x10, 0x1d) => Some(OperateOp::Cmpult),
        (0x10, 0x20) => Some(OperateOp::Addq),
        (0x10, 0x22) => Some(OperateOp::S4addq),
        (0x10, 0x29) => Some(OperateOp::Subq),
        (0x10, 0x2d) => Some(OperateOp::Cmpeq),
        (0x10, 0x32) => Some(OperateOp::S8addq),
        (0x10, 0x3d) => Some(OperateOp::Cmpule),
        (0x10, 0x40) => Some(OperateOp::AddlV),
        (0x10, 0x49) => Some(OperateOp::SublV),
        (0x10, 0x4d) => Some(OperateOp::Cmplt),
        (0x10, 0x60) => Some(OperateOp::AddqV),
        (0x10, 0x69) => Some(OperateOp::SubqV),
        (0x10, 0x6d) => Some(OperateOp::Cmple),
        (0x11, 0x00) => Some(OperateOp::And),
        (0x11, 0x08) => Some(OperateOp::Bic),
        (0x11, 0x20) => Some(OperateOp::Bis),
        (0x11, 0x24) => Some(OperateOp::Cmoveq),
        (0x11, 0x26) => Some(OperateOp::Cmovne),
        (0x11, 0x28) => Some(OperateOp::Ornot),
        (0x11, 0x40) => Some(OperateOp::Xor),
        (0x11, 0x48) => Some(OperateOp::Eqv),
        (0x12, 0x31) => Some(OperateOp::Zapnot),
        (0x12, 0x34) => Some(OperateOp::Srl),
        (0x12, 0x39) => Some(OperateOp::Sll),
        (0x12, 0x3c) => Some(OperateOp::Sra),
        (0x13, 0x00) => Some(OperateOp::Mull),
        (0x13, 0x20) => Some(OperateOp::Mulq),
        (0x13, 0x30) => Some(OperateOp::Umulh),
        (0x13, 0x40) => Some(OperateOp::MullV),
        (0x13, 0x60) => Some(OperateOp::MulqV),
        (0x1c, 0x00) => Some(OperateOp::Sextb),
        (0x1c, 0x01) => Some(OperateOp::Sextw),
        _ => None,
    }
}
