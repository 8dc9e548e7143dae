//! Instructions over virtual registers.
//!
//! A register is named by its number, a block by its number in the function, a function, an object of static
//! storage and a memory local by theirs.

use crate::operands::ArgumentRegisters;
use crate::types::{Alignment, MemoryType, VmType};

/// An operation on one register.
#[derive(Clone, Copy, Debug, PartialEq, Eq)]
pub enum VmUnaryOp {
    /// A copy.
    Move,
    /// The negation. That of a signed number traps where it does not fit.
    Negate,
    /// The complement of each bit.
    Complement,
}

/// An operation on two registers of one type. Signed sums, differences, products and quotients trap where they do
/// not fit, quotients and remainders where the divisor is zero.
#[derive(Clone, Copy, Debug, PartialEq, Eq)]
pub enum VmBinaryOp {
    /// The sum, or a pointer moved by bytes.
    Add,
    /// The difference, or the distance of two pointers in bytes.
    Subtract,
    Multiply,
    /// The quotient, rounded toward zero.
    Divide,
    /// The remainder, with the sign of the left operand.
    Remainder,
    And,
    Or,
    ExclusiveOr,
}

/// A shift by the word of a register.
#[derive(Clone, Copy, Debug, PartialEq, Eq)]
pub enum ShiftOp {
    /// To the right, where the sign stays.
    ArithmeticRight,
    /// To the left.
    Left,
    /// To the right, with zeros behind it.
    LogicalRight,
}

/// A comparison, whose result is 1 or 0.
#[derive(Clone, Copy, Debug, PartialEq, Eq)]
pub enum CompareOp {
    Equal,
    NotEqual,
    Less,
    LessOrEqual,
}

/// When a branch is taken.
#[derive(Clone, Copy, Debug, PartialEq, Eq)]
pub enum VmBranchOp {
    /// Where the value is neither zero nor null.
    IfTrue,
    /// Where the value is zero or null.
    IfFalse,
}

/// An object that has an address before an instruction is done.
#[derive(Clone, Copy, Debug, PartialEq, Eq)]
pub enum VmObject {
    /// An object of static storage.
    Global(u32),
    /// A memory local of this call.
    Local(u32),
}

/// A function that every program has.
#[derive(Clone, Copy, Debug, PartialEq, Eq)]
pub enum VmBuiltin {
    /// `int putchar(int)` (C99 7.19.7.9).
    PutChar,
    /// `int getchar(void)` (C99 7.19.7.6).
    GetChar,
    /// `void abort(void)` (C99 7.20.4.1).
    Abort,
    /// `void exit(int)` (C99 7.20.4.3).
    Exit,
}

/// What is called.
#[derive(Clone, Copy, Debug, PartialEq, Eq)]
pub enum VmCallee {
    /// A function of the program.
    Function(u32),
    Builtin(VmBuiltin),
}

/// A register with the type in which it is read.
#[derive(Clone, Copy, Debug, PartialEq, Eq)]
pub struct TypedRegister {
    pub ty: VmType,
    pub register: u32,
}

/// An instruction.
#[derive(Drop)]
pub enum VmInsn {
    /// `ldc`: the register is the word.
    LoadConstant {
        ty: VmType,
        destination: u32,
        word: u64,
    },
    /// `lda`: the register is the address of the object, moved by so many bytes.
    LoadAddress {
        destination: u32,
        place: VmObject,
        plus: u64,
    },
    /// `lod`: the register is what stands at the pointer moved by so many bytes, extended by the type.
    Load {
        ty: MemoryType,
        destination: u32,
        pointer: u32,
        plus: i64,
    },
    /// `str`: the low bytes of the value are put at the pointer moved by so many bytes.
    Store {
        ty: MemoryType,
        pointer: u32,
        plus: i64,
        value: u32,
    },
    /// `mcpy`: so many cells are copied.
    Copy {
        to: u32,
        from: u32,
        size: u64,
        align: Alignment,
    },
    /// `mov`, `neg`, `not`.
    Unary {
        op: VmUnaryOp,
        ty: VmType,
        destination: u32,
        source: u32,
    },
    /// `add`, `sub`, `mul`, `div`, `rem`, `and`, `ior`, `xor`.
    Binary {
        op: VmBinaryOp,
        ty: VmType,
        destination: u32,
        left: u32,
        right: u32,
    },
    /// `asr`, `lsl`, `lsr`.
    Shift {
        op: ShiftOp,
        ty: VmType,
        destination: u32,
        source: u32,
        count: u32,
    },
    /// `cvt`: the low bytes of the source that the first type has, extended by it, as a value of the second type.
    Convert {
        from: MemoryType,
        to: VmType,
        destination: u32,
        source: u32,
    },
    /// `seq`, `sne`, `sl`, `sle`.
    Compare {
        op: CompareOp,
        ty: VmType,
        destination: u32,
        left: u32,
        right: u32,
    },
    /// `btrue`, `bfalse`.
    Branch {
        op: VmBranchOp,
        ty: VmType,
        source: u32,
        block: u32,
    },
    /// `jmp`.
    Jump {
        block: u32,
    },
    /// `cal`: a call, whose result is put into the register, if one is named.
    Call {
        destination: Option<u32>,
        callee: VmCallee,
        arguments: ArgumentRegisters,
    },
    /// `ret`: the end of the call, with a value or without.
    Return {
        value: Option<TypedRegister>,
    },
    /// `mrk`: takes a turn.
    Mark,
    /// `nop`: does nothing.
    Nop,
}
