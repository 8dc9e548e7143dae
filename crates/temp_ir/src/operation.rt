//! What instructions over temporaries do: the operations of the machine but conditional moves, which read the register
//! that they write, and jumps through a register.

/// The computing of an address.
#[derive(Clone, Copy, Debug, PartialEq, Eq)]
pub enum AddressOp {
    Lda,
    Ldah,
}

/// A load.
#[derive(Clone, Copy, Debug, PartialEq, Eq)]
pub enum LoadOp {
    Ldbu,
    Ldwu,
    Ldl,
    Ldq,
}

/// A store.
#[derive(Clone, Copy, Debug, PartialEq, Eq)]
pub enum StoreOp {
    Stb,
    Stw,
    Stl,
    Stq,
}

/// A branch, by the test that it makes of its operand.
#[derive(Clone, Copy, Debug, PartialEq, Eq)]
pub enum TempBranchOp {
    Blbc,
    Beq,
    Blt,
    Ble,
    Blbs,
    Bne,
    Bge,
    Bgt,
}

/// An operation on two words. A name that ends in `V` traps where its signed result does not fit.
#[derive(Clone, Copy, Debug, PartialEq, Eq)]
pub enum Operation {
    Addl,
    Subl,
    Cmpult,
    Addq,
    S4addq,
    Subq,
    Cmpeq,
    S8addq,
    Cmpule,
    AddlV,
    SublV,
    Cmplt,
    AddqV,
    SubqV,
    Cmple,
    And,
    Bic,
    Bis,
    Ornot,
    Xor,
    Eqv,
    Zapnot,
    Srl,
    Sll,
    Sra,
    Mull,
    Mulq,
    Umulh,
    MullV,
    MulqV,
}

/// A sign extension of a byte or of two.
#[derive(Clone, Copy, Debug, PartialEq, Eq)]
pub enum ExtendOp {
    Sextb,
    Sextw,
}

/// A division routine: quotient and remainder of signed and unsigned (`u`) numbers of 64 bits (`q`) and 32 bits (`l`).
#[derive(Clone, Copy, Debug, PartialEq, Eq)]
pub enum DivisionRoutine {
    Divq,
    Remq,
    Divqu,
    Remqu,
    Divl,
    Reml,
    Divlu,
    Remlu,
}

/// What the machine is asked for.
#[derive(Clone, Copy, Debug, PartialEq, Eq)]
pub enum Service {
    /// To end the run with the status in register 16.
    End,
    /// To put the low byte of register 16.
    PutByte,
    /// To set register 0 to the next byte, or to -1 at the end.
    GetByte,
    /// To trap with the code in register 16.
    Trap,
}
