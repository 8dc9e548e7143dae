//! The items of an assembly, and the places of its data that hold addresses.

ghost use Rattle.std.specs.Prelude.{◌≡◌, IfOk};

use crate::name::FunctionName;
use alpha_isa::insn::{BranchOp, Insn32};
use std::alloc::AllocError;

/// An item of the text of an assembly. Labels are numbers, and label 0 is where a run begins.
///
/// Registers have the numbers 0 to 31, and an instruction that stands as it is has no branch format: an
/// `Asm` keeps both.
#[derive(Debug, Drop, PartialEq, Eq)]
pub enum AsmItem {
    /// Names the place of the next word. It gives no word.
    Label(u32),
    /// The name of the function that begins here. It gives no word.
    Name(FunctionName),
    /// An instruction that stands as it is: one word.
    Plain(Insn32),
    /// A branch to the place of a label: one word where it reaches, and else three or four.
    Branch { op: BranchOp, ra: u8, label: u32 },
    /// Sets a register to the address of a label: two words.
    TextAddress { ra: u8, label: u32 },
    /// Sets a register to the address of a byte of the data, by its offset: two words. The offset may be
    /// the data's length.
    DataAddress { ra: u8, offset: u32 },
}

impl AsmItem {
    /// An equal item. It fails only where memory is short.
    pub fn copy(&self) -> Result<AsmItem, AllocError>
        ensures { IfOk result (λ i. i ≡ self.now) }
    {
        match self {
            AsmItem::Label(label) => Ok(AsmItem::Label(*label)),
            AsmItem::Name(name) => Ok(AsmItem::Name(name.copy()?)),
            AsmItem::Plain(insn) => Ok(AsmItem::Plain(*insn)),
            AsmItem::Branch { op, ra, label } => Ok(AsmItem::Branch {
                op: *op,
                ra: *ra,
                label: *label,
            }),
            AsmItem::TextAddress { ra, label } => Ok(AsmItem::TextAddress {
                ra: *ra,
                label: *label,
            }),
            AsmItem::DataAddress { ra, offset } => Ok(AsmItem::DataAddress {
                ra: *ra,
                offset: *offset,
            }),
        }
    }
}

/// Says that the 8 bytes of the data from `at` on hold the address of the byte of the data at `offset`,
/// the lowest byte first. The offset may be the data's length.
#[derive(Clone, Copy, Debug, PartialEq, Eq)]
pub struct Fix {
    pub at: u32,
    pub offset: u32,
}
