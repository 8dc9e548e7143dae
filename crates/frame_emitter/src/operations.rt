//! The operation of the machine that each operation over temporaries is, and the numbers of registers and routines.

ghost use Rattle.std.specs.Prelude.{◌≡◌, ℕ, ◌<◌};
ghost use Rattle.alpha_isa.specs.Lawful.{IsFirstOperand};
ghost use Rattle.alpha_rt.specs.Items as routines;
ghost use Rattle.temp_ir.specs.Operations.{address_op, load_op, store_op, branch_op, operate_op, extend_op};
ghost use Rattle.temp_ir.specs.Fixed.{register_number};
ghost use Rattle.alloc_model.specs.Effect.{routine_of};
ghost use Rattle.frame_steps.specs.function_items.InstructionItems.{service_function};

use alpha_isa::insn::{BranchOp as MachineBranch, MemoryOp, OperateOp};
use temp_ir::insn::FixedRegister;
use temp_ir::operation::{
    AddressOp, DivisionRoutine, ExtendOp, LoadOp, Operation, Service, StoreOp, TempBranchOp,
};

pub(crate) fn address_op(op: AddressOp) -> MemoryOp
    ensures { result ≡ address_op op }
{
    match op {
        AddressOp::Lda => MemoryOp::Lda,
        AddressOp::Ldah => MemoryOp::Ldah,
    }
}

pub(crate) fn load_op(op: LoadOp) -> MemoryOp
    ensures { result ≡ load_op op }
{
    match op {
        LoadOp::Ldbu => MemoryOp::Ldbu,
        LoadOp::Ldwu => MemoryOp::Ldwu,
        LoadOp::Ldl => MemoryOp::Ldl,
        LoadOp::Ldq => MemoryOp::Ldq,
    }
}

pub(crate) fn store_op(op: StoreOp) -> MemoryOp
    ensures { result ≡ store_op op }
{
    match op {
        StoreOp::Stb => MemoryOp::Stb,
        StoreOp::Stw => MemoryOp::Stw,
        StoreOp::Stl => MemoryOp::Stl,
        StoreOp::Stq => MemoryOp::Stq,
    }
}

pub(crate) fn branch_op(op: TempBranchOp) -> MachineBranch
    ensures { result ≡ branch_op op }
{
    match op {
        TempBranchOp::Blbc => MachineBranch::Blbc,
        TempBranchOp::Beq => MachineBranch::Beq,
        TempBranchOp::Blt => MachineBranch::Blt,
        TempBranchOp::Ble => MachineBranch::Ble,
        TempBranchOp::Blbs => MachineBranch::Blbs,
        TempBranchOp::Bne => MachineBranch::Bne,
        TempBranchOp::Bge => MachineBranch::Bge,
        TempBranchOp::Bgt => MachineBranch::Bgt,
    }
}

/// None of these is a sign extension, so the first register may be any.
pub(crate) fn operate_op(op: Operation) -> OperateOp
    ensures is { result ≡ operate_op op }
    ensures any { (ra : ℕ) → ra < 32 → IsFirstOperand result ra }
{
    match op {
        Operation::Addl => OperateOp::Addl,
        Operation::Subl => OperateOp::Subl,
        Operation::Cmpult => OperateOp::Cmpult,
        Operation::Addq => OperateOp::Addq,
        Operation::S4addq => OperateOp::S4addq,
        Operation::Subq => OperateOp::Subq,
        Operation::Cmpeq => OperateOp::Cmpeq,
        Operation::S8addq => OperateOp::S8addq,
        Operation::Cmpule => OperateOp::Cmpule,
        Operation::AddlV => OperateOp::AddlV,
        Operation::SublV => OperateOp::SublV,
        Operation::Cmplt => OperateOp::Cmplt,
        Operation::AddqV => OperateOp::AddqV,
        Operation::SubqV => OperateOp::SubqV,
        Operation::Cmple => OperateOp::Cmple,
        Operation::And => OperateOp::And,
        Operation::Bic => OperateOp::Bic,
        Operation::Bis => OperateOp::Bis,
        Operation::Ornot => OperateOp::Ornot,
        Operation::Xor => OperateOp::Xor,
        Operation::Eqv => OperateOp::Eqv,
        Operation::Zapnot => OperateOp::Zapnot,
        Operation::Srl => OperateOp::Srl,
        Operation::Sll => OperateOp::Sll,
        Operation::Sra => OperateOp::Sra,
        Operation::Mull => OperateOp::Mull,
        Operation::Mulq => OperateOp::Mulq,
        Operation::Umulh => OperateOp::Umulh,
        Operation::MullV => OperateOp::MullV,
        Operation::MulqV => OperateOp::MulqV,
    }
}

/// The first register of a sign extension is 31.
pub(crate) fn extend_op(op: ExtendOp) -> OperateOp
    ensures is { result ≡ extend_op op }
    ensures first { IsFirstOperand result 31 }
{
    match op {
        ExtendOp::Sextb => OperateOp::Sextb,
        ExtendOp::Sextw => OperateOp::Sextw,
    }
}

pub(crate) fn register_number(register: FixedRegister) -> u8
    ensures is { result ≡ register_number register }
    ensures small { result < 32 }
{
    match register {
        FixedRegister::Value => 0,
        FixedRegister::Argument0 => 16,
        FixedRegister::Argument1 => 17,
        FixedRegister::Argument2 => 18,
        FixedRegister::Argument3 => 19,
        FixedRegister::Argument4 => 20,
        FixedRegister::Argument5 => 21,
        FixedRegister::Dividend => 24,
        FixedRegister::Divisor => 25,
        FixedRegister::Answer => 27,
    }
}

/// The label of a division routine.
pub(crate) fn entry_label(routine: DivisionRoutine) -> u32
    ensures { result ≡ routines.entry_label (routine_of routine) }
{
    match routine {
        DivisionRoutine::Divq => 1,
        DivisionRoutine::Remq => 2,
        DivisionRoutine::Divqu => 3,
        DivisionRoutine::Remqu => 4,
        DivisionRoutine::Divl => 5,
        DivisionRoutine::Reml => 6,
        DivisionRoutine::Divlu => 7,
        DivisionRoutine::Remlu => 8,
    }
}

/// The function of `call_pal`.
pub(crate) fn service_function(service: Service) -> u32
    ensures { result ≡ service_function service }
{
    match service {
        Service::End => 0x83,
        Service::PutByte => 0x83,
        Service::GetByte => 0x83,
        Service::Trap => 0xAA,
    }
}
