//! The lines are printed.

ghost use Rattle.std.specs.Prelude.{◌≡◌, ◌<◌, ◌++◌, [], OnOk};
ghost use Rattle.alpha_isa.specs.declared.insn.Fields.{Fields as F};
ghost use Rattle.alpha_isa.specs.Words.{extends};
ghost use Rattle.alpha_lines.specs.Lines as lines;
ghost use Rattle.alpha_lines.specs.Mnemonics.{operate_word as operate_spelling};

use crate::item::is_extension;
use crate::mnemonic::{branch_word, jump_word, memory_word, operate_word};
use crate::number::{push_displacement, push_number};
use alpha_isa::insn::{Fields, Insn32, Operand, OperateOp};
use alpha_items::item::{AsmItem, Fix};
use std::alloc::AllocError;

/// Appends a register: `$5`.
fn push_register(line: &mut Vec<u8>, r: u8) -> Result<(), AllocError>
    ensures { OnOk result (line.new.items ≡ line.old.items ++ lines.register_name r) }
{
    line.push(b'$')?;
    push_number(line, u64::from(r))
}

/// Appends a label: `L5`.
fn push_label(line: &mut Vec<u8>, label: u32) -> Result<(), AllocError>
    ensures { OnOk result (line.new.items ≡ line.old.items ++ lines.label_name label) }
{
    line.push(b'L')?;
    push_number(line, u64::from(label))
}

/// Appends a register in brackets: `($27)`.
fn push_indirect(line: &mut Vec<u8>, r: u8) -> Result<(), AllocError>
    ensures { OnOk result (line.new.items ≡ line.old.items ++ lines.indirect_text r) }
{
    line.push(b'(')?;
    push_register(line, r)?;
    line.push(b')')?;
    Ok(())
}

/// Appends a second operand: `$5` or `255`.
fn push_operand(line: &mut Vec<u8>, operand: Operand) -> Result<(), AllocError>
    ensures { OnOk result (line.new.items ≡ line.old.items ++ lines.operand_name operand) }
{
    match operand {
        Operand::Reg(r) => push_register(line, r),
        Operand::Literal(n) => push_number(line, u64::from(n)),
    }
}

/// Appends a word, a blank, a register, a comma and a blank.
fn push_first(line: &mut Vec<u8>, word: &[u8], ra: u8) -> Result<(), AllocError>
    ensures { OnOk result
        (line.new.items ≡ line.old.items ++ lines.word_and_rest word.now (lines.operand_pair (lines.register_name ra) [])) }
{
    line.extend_from_slice(word)?;
    line.push(b' ')?;
    push_register(line, ra)?;
    line.extend_from_slice(b", ")
}

/// Appends a second operand, a comma, a blank and a register.
fn push_last(line: &mut Vec<u8>, rb: Operand, rc: u8) -> Result<(), AllocError>
    ensures { OnOk result (line.new.items ≡ line.old.items ++ lines.operand_pair (lines.operand_name rb) (lines.register_name rc)) }
{
    push_operand(line, rb)?;
    line.extend_from_slice(b", ")?;
    push_register(line, rc)
}

/// Appends an operation.
fn push_operation(
    line: &mut Vec<u8>,
    op: OperateOp,
    ra: u8,
    rb: Operand,
    rc: u8,
) -> Result<(), AllocError>
    ensures { OnOk result
        (line.new.items ≡ line.old.items ++ lines.word_and_rest (operate_spelling op) (lines.operands op ra rb rc)) }
{
    if is_extension(op) {
        line.extend_from_slice(operate_word(op))?;
        line.push(b' ')?;
        push_last(line, rb, rc)
    } else {
        push_first(line, operate_word(op), ra)?;
        push_last(line, rb, rc)
    }
}

/// Appends the line of an instruction. A branch by its displacement has none.
fn push_insn(line: &mut Vec<u8>, insn: &Insn32) -> Result<(), AllocError>
    ensures { OnOk result (line.new.items ≡ line.old.items ++ lines.insn_line insn.now) }
{
    match insn.fields {
        Fields::Memory { op, ra, rb, disp } => {
            push_first(line, memory_word(op), ra)?;
            push_displacement(line, disp)?;
            push_indirect(line, rb)
        }
        Fields::Branch { .. } => Ok(()),
        Fields::Jump { op, ra, rb } => {
            push_first(line, jump_word(op), ra)?;
            push_indirect(line, rb)
        }
        Fields::Operate { op, ra, rb, rc } => push_operation(line, op, ra, rb, rc),
        Fields::Pal { function } => {
            line.extend_from_slice(b"call_pal ")?;
            push_number(line, u64::from(function))
        }
    }
}

/// Appends the line of an item, without a line feed. It fails only where memory is short; then a front of it is
/// appended.
pub fn push_item(line: &mut Vec<u8>, item: &AsmItem) -> Result<(), AllocError>
    ensures { OnOk result (line.new.items ≡ line.old.items ++ lines.item_line item.now) }
{
    match item {
        AsmItem::Label(label) => {
            push_label(line, *label)?;
            line.push(b':')?;
            Ok(())
        }
        AsmItem::Name(name) => {
            line.extend_from_slice(b".ent ")?;
            line.extend_from_slice(name.as_slice())
        }
        AsmItem::Plain(insn) => push_insn(line, insn),
        AsmItem::Branch { op, ra, label } => {
            push_first(line, branch_word(*op), *ra)?;
            push_label(line, *label)
        }
        AsmItem::TextAddress { ra, label } => {
            push_first(line, b".text", *ra)?;
            push_label(line, *label)
        }
        AsmItem::DataAddress { ra, offset } => {
            push_first(line, b".addr", *ra)?;
            push_number(line, u64::from(*offset))
        }
    }
}

/// Appends the line that says how many bytes the data has, without a line feed. Where memory is short a front of it
/// is appended.
pub fn push_data(line: &mut Vec<u8>, n: u64) -> Result<(), AllocError>
    ensures { OnOk result (line.new.items ≡ line.old.items ++ lines.data_line n) }
{
    line.extend_from_slice(b".data ")?;
    push_number(line, n)
}

/// Appends the line of a fix, without a line feed. Where memory is short a front of it is appended.
pub fn push_fix(line: &mut Vec<u8>, fix: &Fix) -> Result<(), AllocError>
    ensures { OnOk result (line.new.items ≡ line.old.items ++ lines.fix_line fix.now) }
{
    line.extend_from_slice(b".fix ")?;
    push_number(line, u64::from(fix.at))?;
    line.push(b' ')?;
    push_number(line, u64::from(fix.offset))
}

/// A hexadecimal digit, in lower case.
fn hex_digit(d: u8) -> u8
    requires { d < 16 }
    ensures { result ≡ lines.hex_digit d }
{
    if d < 10 { b'0' + d } else { b'a' - 10 + d }
}

/// Appends the line of bytes of the data, without a line feed. Where memory is short a front of it is appended.
pub fn push_hex(line: &mut Vec<u8>, bytes: &[u8]) -> Result<(), AllocError>
    ensures { OnOk result (line.new.items ≡ line.old.items ++ lines.hex_line bytes.now) }
{
    line.extend_from_slice(b".hex ")?;
    for b in bytes {
        line.push(hex_digit(*b / 16))?;
        line.push(hex_digit(*b % 16))?;
    }
    Ok(())
}
