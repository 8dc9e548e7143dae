//! Instructions over temporaries.
//!
//! A temporary is named by its number, a block by its number in the function, a function, an object of static storage
//! and a memory local by theirs.

use crate::operation::{
    AddressOp, DivisionRoutine, ExtendOp, LoadOp, Operation, Service, StoreOp, TempBranchOp,
};
use suifvm_ir::insn::VmObject;

/// A register that has a role where a function is called, returns, divides or asks for a service.
#[derive(Clone, Copy, Debug, PartialEq, Eq)]
pub enum FixedRegister {
    /// Register 0: what a function returns, and the number of a service.
    Value,
    /// Registers 16 to 21: the first six arguments.
    Argument0,
    Argument1,
    Argument2,
    Argument3,
    Argument4,
    Argument5,
    /// Register 24: what a routine divides.
    Dividend,
    /// Register 25: what it divides by.
    Divisor,
    /// Register 27: what a routine answers.
    Answer,
}

/// A first operand.
#[derive(Clone, Copy, Debug, PartialEq, Eq)]
pub enum FirstOperand {
    /// The zero that register 31 reads.
    Zero,
    Temp(u32),
}

/// A second operand.
#[derive(Clone, Copy, Debug, PartialEq, Eq)]
pub enum SecondOperand {
    Temp(u32),
    /// A number from 0 to 255.
    Literal(u8),
}

/// An instruction. Its registers are temporaries, but where it has a fixed one by its kind.
#[derive(Clone, Copy, Debug, PartialEq, Eq)]
pub enum TempInsn {
    /// The base moved by so many bytes, or by so many times 65,536.
    Address {
        op: AddressOp,
        destination: u32,
        base: FirstOperand,
        plus: i16,
    },
    /// The address of an object, moved by so many bytes.
    ObjectAddress {
        destination: u32,
        place: VmObject,
        plus: u64,
    },
    /// What stands at the pointer moved by so many bytes.
    Load {
        op: LoadOp,
        destination: u32,
        pointer: u32,
        plus: i16,
    },
    /// The value is put at the pointer moved by so many bytes.
    Store {
        op: StoreOp,
        value: FirstOperand,
        pointer: u32,
        plus: i16,
    },
    /// An operation on two operands. `Bis` of zero and another operand moves it.
    Operate {
        op: Operation,
        destination: u32,
        left: FirstOperand,
        right: SecondOperand,
    },
    /// The sign extension of an operand.
    Extend {
        op: ExtendOp,
        destination: u32,
        source: SecondOperand,
    },
    /// The fixed register holds what the temporary holds.
    ToFixed {
        register: FixedRegister,
        source: u32,
    },
    /// The temporary holds what the fixed register holds.
    FromFixed {
        destination: u32,
        register: FixedRegister,
    },
    /// The fixed register is a number.
    SetFixed {
        register: FixedRegister,
        number: i16,
    },
    /// The argument place with a number, from 0 for the seventh argument, holds what the temporary holds.
    WriteArgument {
        number: u32,
        source: u32,
    },
    /// The temporary holds what the argument place with a number held at the call of this function.
    ReadArgument {
        destination: u32,
        number: u32,
    },
    /// A branch where the operand passes the test.
    Branch {
        op: TempBranchOp,
        source: u32,
        block: u32,
    },
    Jump {
        block: u32,
    },
    /// A call of a function with so many arguments, the first six in fixed registers, the others in argument places.
    Call {
        function: u32,
        arguments: u32,
    },
    /// A call of a division routine.
    Divide {
        routine: DivisionRoutine,
    },
    /// A call of the machine, whose number stands in register 0 but for a trap.
    Serve {
        service: Service,
    },
    /// The end of the call, with the value in register 0 or without.
    Return {
        with_value: bool,
    },
    /// Takes a turn.
    Mark,
}
