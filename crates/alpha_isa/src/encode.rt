//! The word of an instruction.

ghost use Rattle.std.specs.Prelude.{◌≡◌, ◌+◌, ◌*◌, ◌<◌, ◌^◌};
ghost use Rattle.alpha_isa.specs.Lawful.{IsOperand, IsBranchDisplacement};
ghost use Rattle.alpha_isa.specs.Words.{insn_word, branch_bits, operand_bits};

use crate::codes::{branch_opcode, jump_kind, memory_opcode, operate_codes};
use crate::insn::{Fields, Insn32, Operand};

/// The opcode of the jumps.
pub(crate) const JUMP: u32 = 0x1a;

/// The word that stands for an instruction.
pub fn encode(insn: &Insn32) -> u32
    ensures { result ≡ insn_word insn.now }
{
    match insn.fields {
        Fields::Memory { op, ra, rb, disp } => {
            head(memory_opcode(op), ra) + (u32::from(rb) << 16) + u32::from(disp.cast_unsigned())
        }
        Fields::Branch { op, ra, disp } => head(branch_opcode(op), ra) + branch_field(disp),
        Fields::Jump { op, ra, rb } => {
            head(JUMP, ra) + (u32::from(rb) << 16) + (jump_kind(op) << 14)
        }
        Fields::Operate { op, ra, rb, rc } => {
            let (opcode, function) = operate_codes(op);
            head(opcode, ra) + operand_field(rb) + (function << 5) + u32::from(rc)
        }
        Fields::Pal { function } => function,
    }
}

/// The opcode and the first register in their places.
fn head(opcode: u32, ra: u8) -> u32
    requires opcode { opcode < 64 }
    requires ra { ra < 32 }
    ensures { result ≡ opcode * 2 ^ 26 + ra * 2 ^ 21 }
{
    (opcode << 26) + (u32::from(ra) << 21)
}

/// The low 21 bits of a branch's displacement.
fn branch_field(disp: i32) -> u32
    requires { IsBranchDisplacement disp }
    ensures value { result ≡ branch_bits disp }
    ensures within { result < 2 ^ 21 }
{
    disp.cast_unsigned() & 0x1f_ffff
}

/// A second operand in its place.
fn operand_field(operand: Operand) -> u32
    requires { IsOperand operand }
    ensures value { result ≡ operand_bits operand }
    ensures within { result < 2 ^ 21 }
{
    match operand {
        Operand::Reg(register) => u32::from(register) << 16,
        Operand::Literal(literal) => (u32::from(literal) << 13) + (1 << 12),
    }
}
