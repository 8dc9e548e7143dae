//! The words of instructions, and the numbers of fixed registers.

ghost use Rattle.std.specs.Prelude.{◌≡◌};
ghost use Rattle.alpha_lines.specs.Mnemonics as mnemonic;
ghost use Rattle.temp_ir.specs.Fixed.{register_number};
ghost use Rattle.temp_ir.specs.Operations as operations;
ghost use Rattle.temp_ir.specs.Text as text;

use crate::insn::FixedRegister;
use crate::operation::{
    AddressOp, DivisionRoutine, ExtendOp, LoadOp, Operation, Service, StoreOp, TempBranchOp,
};

impl FixedRegister {
    /// The number of the register.
    pub fn number(self) -> u8
        ensures { result ≡ register_number self }
    {
        match self {
            FixedRegister::Value => 0,
            FixedRegister::Argument0 => 16,
            FixedRegister::Argument1 => 17,
            FixedRegister::Argument2 => 18,
            FixedRegister::Argument3 => 19,
            FixedRegister::Argument4 => 20,
            FixedRegister::Argument5 => 21,
            FixedRegister::Dividend => 24,
            FixedRegister::Divisor => 25,
            FixedRegister::Answer => 27,
        }
    }
}

/// The mnemonic of an address.
pub fn address_word(op: AddressOp) -> &'static str
    ensures { result.now ≡ mnemonic.memory_word (operations.address_op op) }
{
    match op {
        AddressOp::Lda => "lda",
        AddressOp::Ldah => "ldah",
    }
}

/// The mnemonic of a load.
pub fn load_word(op: LoadOp) -> &'static str
    ensures { result.now ≡ mnemonic.memory_word (operations.load_op op) }
{
    match op {
        LoadOp::Ldbu => "ldbu",
        LoadOp::Ldwu => "ldwu",
        LoadOp::Ldl => "ldl",
        LoadOp::Ldq => "ldq",
    }
}

/// The mnemonic of a store.
pub fn store_word(op: StoreOp) -> &'static str
    ensures { result.now ≡ mnemonic.memory_word (operations.store_op op) }
{
    match op {
        StoreOp::Stb => "stb",
        StoreOp::Stw => "stw",
        StoreOp::Stl => "stl",
        StoreOp::Stq => "stq",
    }
}

/// The mnemonic of a branch.
pub fn branch_word(op: TempBranchOp) -> &'static str
    ensures { result.now ≡ mnemonic.branch_word (operations.branch_op op) }
{
    match op {
        TempBranchOp::Blbc => "blbc",
        TempBranchOp::Beq => "beq",
        TempBranchOp::Blt => "blt",
        TempBranchOp::Ble => "ble",
        TempBranchOp::Blbs => "blbs",
        TempBranchOp::Bne => "bne",
        TempBranchOp::Bge => "bge",
        TempBranchOp::Bgt => "bgt",
    }
}

/// The mnemonic of an operation.
pub fn operate_word(op: Operation) -> &'static str
    ensures { result.now ≡ mnemonic.operate_word (operations.operate_op op) }
{
    match op {
        Operation::Addl => "addl",
        Operation::Subl => "subl",
        Operation::Cmpult => "cmpult",
        Operation::Addq => "addq",
        Operation::S4addq => "s4addq",
        Operation::Subq => "subq",
        Operation::Cmpeq => "cmpeq",
        Operation::S8addq => "s8addq",
        Operation::Cmpule => "cmpule",
        Operation::AddlV => "addl/v",
        Operation::SublV => "subl/v",
        Operation::Cmplt => "cmplt",
        Operation::AddqV => "addq/v",
        Operation::SubqV => "subq/v",
        Operation::Cmple => "cmple",
        Operation::And => "and",
        Operation::Bic => "bic",
        Operation::Bis => "bis",
        Operation::Ornot => "ornot",
        Operation::Xor => "xor",
        Operation::Eqv => "eqv",
        Operation::Zapnot => "zapnot",
        Operation::Srl => "srl",
        Operation::Sll => "sll",
        Operation::Sra => "sra",
        Operation::Mull => "mull",
        Operation::Mulq => "mulq",
        Operation::Umulh => "umulh",
        Operation::MullV => "mull/v",
        Operation::MulqV => "mulq/v",
    }
}

/// The mnemonic of a sign extension.
pub fn extend_word(op: ExtendOp) -> &'static str
    ensures { result.now ≡ mnemonic.operate_word (operations.extend_op op) }
{
    match op {
        ExtendOp::Sextb => "sextb",
        ExtendOp::Sextw => "sextw",
    }
}

/// The name of a division routine.
pub fn routine_word(routine: DivisionRoutine) -> &'static str
    ensures { result.now ≡ text.routine_word routine }
{
    match routine {
        DivisionRoutine::Divq => "__divq",
        DivisionRoutine::Remq => "__remq",
        DivisionRoutine::Divqu => "__divqu",
        DivisionRoutine::Remqu => "__remqu",
        DivisionRoutine::Divl => "__divl",
        DivisionRoutine::Reml => "__reml",
        DivisionRoutine::Divlu => "__divlu",
        DivisionRoutine::Remlu => "__remlu",
    }
}

/// The text of a service.
pub fn service_word(service: Service) -> &'static str
    ensures { result.now ≡ text.service_text service }
{
    match service {
        Service::End => "call_pal 131",
        Service::PutByte => "call_pal 131",
        Service::GetByte => "call_pal 131",
        Service::Trap => "call_pal 170",
    }
}

/// The text of a return.
pub fn return_word(with_value: bool) -> &'static str
    ensures { result.now ≡ text.return_text with_value }
{
    if with_value { "ret $0" } else { "ret" }
}
