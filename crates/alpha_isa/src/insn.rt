//! The instructions, by their formats.

use std::marker::Model;

/// A load, a store, or the computing of an address.
#[derive(Clone, Copy, Debug, PartialEq, Eq)]
pub enum MemoryOp {
    Lda,
    Ldah,
    Ldbu,
    Ldwu,
    Stw,
    Stb,
    Ldl,
    Ldq,
    Stl,
    Stq,
}

/// A branch, by the test that it makes of its register. `Br` and `Bsr` make none.
#[derive(Clone, Copy, Debug, PartialEq, Eq)]
pub enum BranchOp {
    Br,
    Bsr,
    Blbc,
    Beq,
    Blt,
    Ble,
    Blbs,
    Bne,
    Bge,
    Bgt,
}

/// A jump through a register. The three differ in what they hint at alone.
#[derive(Clone, Copy, Debug, PartialEq, Eq)]
pub enum JumpOp {
    Jmp,
    Jsr,
    Ret,
}

/// An operation on two words. A name that ends in `V` traps where its signed result does not fit.
#[derive(Clone, Copy, Debug, PartialEq, Eq)]
pub enum OperateOp {
    Addl,
    Subl,
    Cmpult,
    Addq,
    S4addq,
    Subq,
    Cmpeq,
    S8addq,
    Cmpule,
    AddlV,
    SublV,
    Cmplt,
    AddqV,
    SubqV,
    Cmple,
    And,
    Bic,
    Bis,
    Cmoveq,
    Cmovne,
    Ornot,
    Xor,
    Eqv,
    Zapnot,
    Srl,
    Sll,
    Sra,
    Mull,
    Mulq,
    Umulh,
    MullV,
    MulqV,
    Sextb,
    Sextw,
}

/// The second operand of an operation: a register, or a literal from 0 to 255.
#[derive(Clone, Copy, Debug, PartialEq, Eq)]
pub enum Operand {
    Reg(u8),
    Literal(u8),
}

/// The fields of an instruction. Registers have the numbers 0 to 31.
#[derive(Clone, Copy, Debug, PartialEq, Eq)]
pub enum Fields {
    /// `disp` counts bytes, or 65,536 of them in `Ldah`.
    Memory {
        op: MemoryOp,
        ra: u8,
        rb: u8,
        disp: i16,
    },
    /// `disp` counts instructions from the next one on, and has 21 bits.
    Branch {
        op: BranchOp,
        ra: u8,
        disp: i32,
    },
    Jump {
        op: JumpOp,
        ra: u8,
        rb: u8,
    },
    /// The sum, product or other value of `ra` and `rb` goes to `rc`. `ra` of `Sextb` and `Sextw` is 31.
    Operate {
        op: OperateOp,
        ra: u8,
        rb: Operand,
        rc: u8,
    },
    /// A call of privileged code: 83 (hexadecimal) is a service, AA a trap. There is no other.
    Pal {
        function: u32,
    },
}

/// An instruction whose fields are in their ranges, so that it has a word. Contracts see it as its fields.
#[derive(Clone, Copy, Debug, PartialEq, Eq)]
pub struct Insn32 {
    pub fields: Fields,
}

impl Model for Insn32 {
    ghost use Rattle.alpha_isa.specs.declared.insn.Fields.{Fields};
    ghost use Rattle.alpha_isa.specs.Lawful.{AreLawfulFields};

    ghost Value = { Fields };

    ghost view = { λ i. i.fields };

    ghost invariant = { λ i. AreLawfulFields i.fields };

    ghost inverse = { λ f. record { fields = f } };
}
