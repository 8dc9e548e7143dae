//! The instruction of a word.

ghost use Rattle.std.specs.Prelude.{◌≡◌, ◌≢◌, ◌*◌, ◌<◌, ◌^◌, ◌↔◌, IfSome, IsTrue, Some};
ghost use Rattle.alpha_isa.specs.declared.insn.Fields.{Fields};
ghost use Rattle.alpha_isa.specs.Lawful.{AreLawfulFields, IsBranchDisplacement};
ghost use Rattle.alpha_isa.specs.Words.{insn_word, insn_of, pal_insn, memory_insn, branch_insn, jump_insn, operate_insn, operand_at, branch_displacement, opcode_of, ra_of, rb_of, rc_of, is_operate, extends};

use crate::codes::{branch_op, jump_op, memory_op, operate_op};
use crate::encode::{JUMP, encode};
use crate::insn::{Fields, Insn32, Operand, OperateOp};
use crate::limits::BRANCH_REACH;

/// The instruction that a word stands for. `None` comes exactly where no instruction has that word.
pub fn decode(word: u32) -> Option<Insn32>
    ensures found { IfSome result (λ i. insn_word i ≡ word) }
    ensures only { (i : Fields) → AreLawfulFields i → insn_word i ≡ word → result ≡ Some i }
    ensures exact { result ≡ insn_of word }
{
    let fields = fields_of(word)?;
    Some(Insn32 { fields })
}

/// The instruction of an instruction's word, which is that instruction.
pub fn decode_encoded(insn: &Insn32) -> Option<Insn32>
    ensures { result ≡ Some insn.now }
{
    let _lawful = &insn.fields;
    decode(encode(insn))
}

#[tactic(auto, unfolding(crate::specs::Words::insn_of))]
fn fields_of(word: u32) -> Option<Fields>
    ensures { result ≡ insn_of word }
{
    match word >> 26 {
        0 => pal(word),
        JUMP => jump(word),
        0x10..=0x13 | 0x1c => operate(word),
        opcode if opcode < 0x30 => memory(word),
        _ => branch(word),
    }
}

#[tactic(auto, unfolding(crate::specs::Words::pal_insn))]
fn pal(word: u32) -> Option<Fields>
    ensures { result ≡ pal_insn word }
{
    match word {
        0x83 | 0xaa => Some(Fields::Pal { function: word }),
        _ => None,
    }
}

/// The first register of a word.
fn ra(word: u32) -> u8
    ensures { result ≡ ra_of word }
{
    (word >> 21 & 31) as u8
}

/// The second register of a word.
fn rb(word: u32) -> u8
    ensures { result ≡ rb_of word }
{
    (word >> 16 & 31) as u8
}

#[tactic(auto, unfolding(crate::specs::Words::memory_insn))]
fn memory(word: u32) -> Option<Fields>
    ensures { result ≡ memory_insn word }
{
    let op = memory_op(word >> 26)?;
    Some(Fields::Memory {
        op,
        ra: ra(word),
        rb: rb(word),
        disp: ((word & 0xffff) as u16).cast_signed(),
    })
}

/// A number of 21 bits in two's complement.
fn displacement(bits: u32) -> i32
    requires { bits < 2 ^ 21 }
    ensures { result ≡ branch_displacement bits }
{
    if u64::from(bits) < BRANCH_REACH {
        bits as i32
    } else {
        bits as i32 - (1 << 21)
    }
}

#[tactic(auto, unfolding(crate::specs::Words::branch_insn))]
fn branch(word: u32) -> Option<Fields>
    ensures { result ≡ branch_insn word }
{
    let op = branch_op(word >> 26)?;
    Some(Fields::Branch {
        op,
        ra: ra(word),
        disp: displacement(word & 0x1f_ffff),
    })
}

#[tactic(auto, unfolding(crate::specs::Words::jump_insn))]
fn jump(word: u32) -> Option<Fields>
    ensures { result ≡ jump_insn word }
{
    if word & 0x3fff != 0 {
        return None;
    }
    let op = jump_op(word >> 14 & 3)?;
    Some(Fields::Jump {
        op,
        ra: ra(word),
        rb: rb(word),
    })
}

/// The second operand of an operation, whose bits 15 to 12 are zero at a register.
fn operand(word: u32) -> Option<Operand>
    ensures { result ≡ operand_at word }
{
    if word >> 12 & 1 == 1 {
        Some(Operand::Literal((word >> 13 & 255) as u8))
    } else if word >> 12 & 15 == 0 {
        Some(Operand::Reg(rb(word)))
    } else {
        None
    }
}

/// Whether an operation extends a sign, and so has its second operand alone.
fn is_extension(op: OperateOp) -> bool
    ensures { result ≡ extends op }
{
    matches!(op, OperateOp::Sextb | OperateOp::Sextw)
}

#[tactic(auto, unfolding(crate::specs::Words::operate_insn))]
fn operate(word: u32) -> Option<Fields>
    ensures { result ≡ operate_insn word }
{
    let op = operate_op(word >> 26, word >> 5 & 127)?;
    let rb = operand(word)?;
    let ra = ra(word);
    if is_extension(op) && ra != 31 {
        return None;
    }
    Some(Fields::Operate {
        op,
        ra,
        rb,
        rc: (word & 31) as u8,
    })
}
