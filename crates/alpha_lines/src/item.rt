//! The lines of items are read.

ghost use Rattle.std.specs.Prelude.{◌≡◌, ℕ, List, IfOk, IfSome, Some, None, if◌then◌else◌, Bool, false, IsTrue, option_map, OnOk};
ghost use Rattle.std.specs.List.{list_all};
ghost use Rattle.alpha_isa.specs.Lawful.{AreLawfulFields};
ghost use Rattle.alpha_isa.specs.Words.{extends};
ghost use Rattle.alpha_items.specs.Items as items;
ghost use Rattle.alpha_items.specs.declared.item.AsmItem.{AsmItem as Item};
ghost use Rattle.alpha_lines.specs.Lines.{HasLine, item_line};
ghost use Rattle.alpha_lines.specs.model.Readers as readers;
ghost use Rattle.alpha_lines.specs.model.Numbers.{number_of};

use crate::cut::{cut, pair};
use crate::mnemonic::{Mnemonic, read_mnemonic};
use crate::number::number;
use crate::operand::{
    address, closed_by, indirect, label, number32, operand_and_register, register,
    register_and_label,
};
use alpha_isa::insn::{BranchOp, Fields, Insn32, JumpOp, MemoryOp, OperateOp};
use alpha_items::item::AsmItem;
use alpha_items::name::FunctionName;
use std::alloc::{AllocError, Global};

/// The greatest call of privileged code.
const MOST_CALL: u64 = 255;

/// The register of an operation that has no first one.
const NO_REGISTER: u8 = 31;

/// A load, a store or an address.
#[tactic(auto, unfolding(crate::specs::model::Readers::two_of))]
fn memory(op: MemoryOp, rest: &[u8]) -> Option<AsmItem>
    ensures { result
        ≡ option_map (readers.memory_item op) (readers.two_of readers.register_of readers.address_of rest.now) }
{
    let (first, second) = pair(rest)?;
    let ra = register(first)?;
    let (disp, rb) = address(second)?;
    Some(AsmItem::Plain(Insn32 {
        fields: Fields::Memory { op, ra, rb, disp },
    }))
}

/// A jump.
#[tactic(auto, unfolding(crate::specs::model::Readers::two_of))]
fn jump(op: JumpOp, rest: &[u8]) -> Option<AsmItem>
    ensures { result
        ≡ option_map (readers.jump_item op) (readers.two_of readers.register_of readers.indirect_of rest.now) }
{
    let (first, second) = pair(rest)?;
    let ra = register(first)?;
    let rb = indirect(second)?;
    Some(AsmItem::Plain(Insn32 {
        fields: Fields::Jump { op, ra, rb },
    }))
}

/// Whether an operation extends a sign, and so has no first register.
pub(crate) fn is_extension(op: OperateOp) -> bool
    ensures { result ≡ extends op }
{
    matches!(op, OperateOp::Sextb | OperateOp::Sextw)
}

/// An extension of a sign.
fn extension(op: OperateOp, rest: &[u8]) -> Option<AsmItem>
    requires { IsTrue (extends op) }
    ensures { result
        ≡ option_map (readers.extension_item op) (readers.two_of readers.operand_of readers.register_of rest.now) }
{
    let (rb, rc) = operand_and_register(rest)?;
    Some(AsmItem::Plain(Insn32 {
        fields: Fields::Operate {
            op,
            ra: NO_REGISTER,
            rb,
            rc,
        },
    }))
}

/// Another operation.
#[tactic(auto, unfolding(crate::specs::model::Readers::two_of))]
fn operation_of_three(op: OperateOp, rest: &[u8]) -> Option<AsmItem>
    requires { extends op ≡ false }
    ensures { result
        ≡ option_map (readers.operate_item op)
        (readers.two_of readers.register_of (readers.two_of readers.operand_of readers.register_of) rest.now) }
{
    let (first, behind) = pair(rest)?;
    let ra = register(first)?;
    let (rb, rc) = operand_and_register(behind)?;
    Some(AsmItem::Plain(Insn32 {
        fields: Fields::Operate { op, ra, rb, rc },
    }))
}

/// An operation.
#[tactic(auto, unfolding(crate::specs::model::Readers::operation_of))]
fn operation(op: OperateOp, rest: &[u8]) -> Option<AsmItem>
    ensures { result ≡ readers.operation_of op rest.now }
{
    if is_extension(op) {
        extension(op, rest)
    } else {
        operation_of_three(op, rest)
    }
}

/// A call of privileged code.
fn call(rest: &[u8]) -> Option<AsmItem>
    ensures { result ≡ readers.call_in (number_of 255 rest.now) }
{
    match number(rest, MOST_CALL) {
        Some(0x83) => Some(AsmItem::Plain(Insn32 {
            fields: Fields::Pal { function: 0x83 },
        })),
        Some(0xaa) => Some(AsmItem::Plain(Insn32 {
            fields: Fields::Pal { function: 0xaa },
        })),
        _ => None,
    }
}

/// A register and an offset of the data.
#[tactic(auto, unfolding(crate::specs::model::Readers::two_of))]
fn data_address(rest: &[u8]) -> Option<AsmItem>
    ensures { result
        ≡ option_map (λ p. Item.DataAddress p.0 p.1) (readers.two_of readers.register_of readers.number32_of rest.now) }
{
    let (first, second) = pair(rest)?;
    let ra = register(first)?;
    let offset = number32(second)?;
    Some(AsmItem::DataAddress { ra, offset })
}

/// Whether a byte begins a name: a letter or `_` (C99 6.4.2.1).
fn is_letter(b: u8) -> bool
    ensures { result ≡ items.is_letter b }
{
    matches!(b, b'A'..=b'Z' | b'a'..=b'z' | b'_')
}

/// Whether a byte goes on a name.
fn is_letter_or_digit(b: u8) -> bool
    ensures { result ≡ items.is_letter_or_digit b }
{
    is_letter(b) || matches!(b, b'0'..=b'9')
}

/// Whether all bytes go on a name.
fn are_letters_or_digits(s: &[u8]) -> bool
    ensures { result ≡ list_all items.is_letter_or_digit s.now }
{
    s.iter().all(|b| is_letter_or_digit(*b))
}

/// Whether bytes are a name: a letter or `_`, then letters, digits and `_` (C99 6.4.2.1).
pub fn is_name(s: &[u8]) -> bool
    ensures { result ≡ items.is_name s.now }
{
    match s {
        [] => false,
        [first, rest @ ..] => is_letter(*first) && are_letters_or_digits(rest),
    }
}

/// The name of a function.
fn name(alloc: Global, rest: &[u8]) -> Result<Option<AsmItem>, AllocError>
    ensures { IfOk result (λ found. found ≡ (if items.is_name rest.now then Some (Item.Name rest.now) else None)) }
{
    if !is_name(rest) {
        return Ok(None);
    }
    let name = FunctionName::from_slice(alloc, rest)?;
    Ok(Some(AsmItem::Name(name)))
}

/// A branch.
fn branch(op: BranchOp, rest: &[u8]) -> Option<AsmItem>
    ensures { result
        ≡ option_map (λ p. Item.Branch op p.0 p.1) (readers.two_of readers.register_of readers.label_of rest.now) }
{
    let (ra, label) = register_and_label(rest)?;
    Some(AsmItem::Branch { op, ra, label })
}

/// The address of a label.
fn text_address(rest: &[u8]) -> Option<AsmItem>
    ensures { result
        ≡ option_map (λ p. Item.TextAddress p.0 p.1) (readers.two_of readers.register_of readers.label_of rest.now) }
{
    let (ra, label) = register_and_label(rest)?;
    Some(AsmItem::TextAddress { ra, label })
}

/// What a line says that begins with the mnemonic, by what stands behind it.
#[tactic(auto, unfolding(crate::specs::model::Readers::said_by))]
fn item_by_mnemonic(
    alloc: Global,
    mnemonic: Mnemonic,
    rest: &[u8],
) -> Result<Option<AsmItem>, AllocError>
    ensures { IfOk result (λ found. found ≡ readers.said_by mnemonic rest.now) }
{
    match mnemonic {
        Mnemonic::Memory(op) => Ok(memory(op, rest)),
        Mnemonic::Branch(op) => Ok(branch(op, rest)),
        Mnemonic::Jump(op) => Ok(jump(op, rest)),
        Mnemonic::Operate(op) => Ok(operation(op, rest)),
        Mnemonic::CallPal => Ok(call(rest)),
        Mnemonic::Entry => name(alloc, rest),
        Mnemonic::TextAddress => Ok(text_address(rest)),
        Mnemonic::DataAddress => Ok(data_address(rest)),
    }
}

/// The label that a line names.
fn label_line(line: &[u8]) -> Option<AsmItem>
    ensures { result ≡ readers.label_in (readers.closed_by 58 line.now) }
{
    let name = closed_by(line, b':')?;
    let label = label(name)?;
    Some(AsmItem::Label(label))
}

/// The item that the line says.
#[tactic(auto, unfolding(crate::specs::model::Readers::item_of))]
fn item_said(alloc: Global, line: &[u8]) -> Result<Option<AsmItem>, AllocError>
    ensures { IfOk result (λ found. found ≡ readers.item_of line.now) }
{
    match cut(line, b' ') {
        None => Ok(label_line(line)),
        Some((word, rest)) => match read_mnemonic(word) {
            None => Ok(None),
            Some(mnemonic) => item_by_mnemonic(alloc, mnemonic, rest),
        },
    }
}

/// The item whose line this is, without its line feed, if it is that of an item whose fields are in their
/// ranges. It fails only where memory is short.
pub fn read_item(alloc: Global, line: &[u8]) -> Result<Option<AsmItem>, AllocError>
    ensures found { IfOk result (λ found. IfSome found (λ i. HasLine i × (line.now ≡ item_line i))) }
    ensures only { (i : Item) → HasLine i → line.now ≡ item_line i → IfOk result (λ found. found ≡ Some i) }
{
    item_said(alloc, line)
}
