//! The mnemonics of the instructions, and the words of the other lines that give an item.

ghost use Rattle.std.specs.Prelude.{◌≡◌};
ghost use Rattle.alpha_lines.specs.Mnemonics.{memory_word as memory_spelling, branch_word as branch_spelling, jump_word as jump_spelling, operate_word as operate_spelling};
ghost use Rattle.alpha_lines.specs.model.Mnemonics.{spelling, mnemonic_of};

use alpha_isa::insn::{BranchOp, JumpOp, MemoryOp, OperateOp};

/// What a line of an item begins with, up to its first blank.
#[derive(Clone, Copy, Debug, PartialEq, Eq)]
pub enum Mnemonic {
    Memory(MemoryOp),
    Branch(BranchOp),
    Jump(JumpOp),
    Operate(OperateOp),
    /// The call of privileged code.
    CallPal,
    /// The name of a function.
    Entry,
    /// The address of a label.
    TextAddress,
    /// The address of a byte of the data.
    DataAddress,
}

const MNEMONICS: [Mnemonic; 61] = [
    Mnemonic::Memory(MemoryOp::Lda),
    Mnemonic::Memory(MemoryOp::Ldah),
    Mnemonic::Memory(MemoryOp::Ldbu),
    Mnemonic::Memory(MemoryOp::Ldwu),
    Mnemonic::Memory(MemoryOp::Stw),
    Mnemonic::Memory(MemoryOp::Stb),
    Mnemonic::Memory(MemoryOp::Ldl),
    Mnemonic::Memory(MemoryOp::Ldq),
    Mnemonic::Memory(MemoryOp::Stl),
    Mnemonic::Memory(MemoryOp::Stq),
    Mnemonic::Branch(BranchOp::Br),
    Mnemonic::Branch(BranchOp::Bsr),
    Mnemonic::Branch(BranchOp::Blbc),
    Mnemonic::Branch(BranchOp::Beq),
    Mnemonic::Branch(BranchOp::Blt),
    Mnemonic::Branch(BranchOp::Ble),
    Mnemonic::Branch(BranchOp::Blbs),
    Mnemonic::Branch(BranchOp::Bne),
    Mnemonic::Branch(BranchOp::Bge),
    Mnemonic::Branch(BranchOp::Bgt),
    Mnemonic::Jump(JumpOp::Jmp),
    Mnemonic::Jump(JumpOp::Jsr),
    Mnemonic::Jump(JumpOp::Ret),
    Mnemonic::Operate(OperateOp::Addl),
    Mnemonic::Operate(OperateOp::Subl),
    Mnemonic::Operate(OperateOp::Cmpult),
    Mnemonic::Operate(OperateOp::Addq),
    Mnemonic::Operate(OperateOp::S4addq),
    Mnemonic::Operate(OperateOp::Subq),
    Mnemonic::Operate(OperateOp::Cmpeq),
    Mnemonic::Operate(OperateOp::S8addq),
    Mnemonic::Operate(OperateOp::Cmpule),
    Mnemonic::Operate(OperateOp::AddlV),
    Mnemonic::Operate(OperateOp::SublV),
    Mnemonic::Operate(OperateOp::Cmplt),
    Mnemonic::Operate(OperateOp::AddqV),
    Mnemonic::Operate(OperateOp::SubqV),
    Mnemonic::Operate(OperateOp::Cmple),
    Mnemonic::Operate(OperateOp::And),
    Mnemonic::Operate(OperateOp::Bic),
    Mnemonic::Operate(OperateOp::Bis),
    Mnemonic::Operate(OperateOp::Cmoveq),
    Mnemonic::Operate(OperateOp::Cmovne),
    Mnemonic::Operate(OperateOp::Ornot),
    Mnemonic::Operate(OperateOp::Xor),
    Mnemonic::Operate(OperateOp::Eqv),
    Mnemonic::Operate(OperateOp::Zapnot),
    Mnemonic::Operate(OperateOp::Srl),
    Mnemonic::Operate(OperateOp::Sll),
    Mnemonic::Operate(OperateOp::Sra),
    Mnemonic::Operate(OperateOp::Mull),
    Mnemonic::Operate(OperateOp::Mulq),
    Mnemonic::Operate(OperateOp::Umulh),
    Mnemonic::Operate(OperateOp::MullV),
    Mnemonic::Operate(OperateOp::MulqV),
    Mnemonic::Operate(OperateOp::Sextb),
    Mnemonic::Operate(OperateOp::Sextw),
    Mnemonic::CallPal,
    Mnemonic::Entry,
    Mnemonic::TextAddress,
    Mnemonic::DataAddress,
];

/// The mnemonic of a load, a store or an address.
pub(crate) fn memory_word(op: MemoryOp) -> &'static [u8]
    ensures { result.now ≡ memory_spelling op }
{
    match op {
        MemoryOp::Lda => b"lda",
        MemoryOp::Ldah => b"ldah",
        MemoryOp::Ldbu => b"ldbu",
        MemoryOp::Ldwu => b"ldwu",
        MemoryOp::Stw => b"stw",
        MemoryOp::Stb => b"stb",
        MemoryOp::Ldl => b"ldl",
        MemoryOp::Ldq => b"ldq",
        MemoryOp::Stl => b"stl",
        MemoryOp::Stq => b"stq",
    }
}

/// The mnemonic of a branch.
pub(crate) fn branch_word(op: BranchOp) -> &'static [u8]
    ensures { result.now ≡ branch_spelling op }
{
    match op {
        BranchOp::Br => b"br",
        BranchOp::Bsr => b"bsr",
        BranchOp::Blbc => b"blbc",
        BranchOp::Beq => b"beq",
        BranchOp::Blt => b"blt",
        BranchOp::Ble => b"ble",
        BranchOp::Blbs => b"blbs",
        BranchOp::Bne => b"bne",
        BranchOp::Bge => b"bge",
        BranchOp::Bgt => b"bgt",
    }
}

/// The mnemonic of a jump.
pub(crate) fn jump_word(op: JumpOp) -> &'static [u8]
    ensures { result.now ≡ jump_spelling op }
{
    match op {
        JumpOp::Jmp => b"jmp",
        JumpOp::Jsr => b"jsr",
        JumpOp::Ret => b"ret",
    }
}

/// The mnemonic of an operation.
pub(crate) fn operate_word(op: OperateOp) -> &'static [u8]
    ensures { result.now ≡ operate_spelling op }
{
    match op {
        OperateOp::Addl => b"addl",
        OperateOp::Subl => b"subl",
        OperateOp::Cmpult => b"cmpult",
        OperateOp::Addq => b"addq",
        OperateOp::S4addq => b"s4addq",
        OperateOp::Subq => b"subq",
        OperateOp::Cmpeq => b"cmpeq",
        OperateOp::S8addq => b"s8addq",
        OperateOp::Cmpule => b"cmpule",
        OperateOp::AddlV => b"addl/v",
        OperateOp::SublV => b"subl/v",
        OperateOp::Cmplt => b"cmplt",
        OperateOp::AddqV => b"addq/v",
        OperateOp::SubqV => b"subq/v",
        OperateOp::Cmple => b"cmple",
        OperateOp::And => b"and",
        OperateOp::Bic => b"bic",
        OperateOp::Bis => b"bis",
        OperateOp::Cmoveq => b"cmoveq",
        OperateOp::Cmovne => b"cmovne",
        OperateOp::Ornot => b"ornot",
        OperateOp::Xor => b"xor",
        OperateOp::Eqv => b"eqv",
        OperateOp::Zapnot => b"zapnot",
        OperateOp::Srl => b"srl",
        OperateOp::Sll => b"sll",
        OperateOp::Sra => b"sra",
        OperateOp::Mull => b"mull",
        OperateOp::Mulq => b"mulq",
        OperateOp::Umulh => b"umulh",
        OperateOp::MullV => b"mull/v",
        OperateOp::MulqV => b"mulq/v",
        OperateOp::Sextb => b"sextb",
        OperateOp::Sextw => b"sextw",
    }
}

/// How a mnemonic is spelled.
fn spelling_of(mnemonic: Mnemonic) -> &'static [u8]
    ensures { result.now ≡ spelling mnemonic }
{
    match mnemonic {
        Mnemonic::Memory(op) => memory_word(op),
        Mnemonic::Branch(op) => branch_word(op),
        Mnemonic::Jump(op) => jump_word(op),
        Mnemonic::Operate(op) => operate_word(op),
        Mnemonic::CallPal => b"call_pal",
        Mnemonic::Entry => b".ent",
        Mnemonic::TextAddress => b".text",
        Mnemonic::DataAddress => b".addr",
    }
}

/// The mnemonic that is spelled so.
#[tactic(auto, unfolding(crate::specs::model::Mnemonics::mnemonic_of, crate::specs::model::Mnemonics::mnemonics))]
pub(crate) fn read_mnemonic(word: &[u8]) -> Option<Mnemonic>
    ensures { result ≡ mnemonic_of word.now }
{
    MNEMONICS
        .iter()
        .copied()
        .find(|mnemonic| word == spelling_of(*mnemonic))
}
