//! The code of constants.

use anyhow::{Result, bail};
use pass_core::block::Block;
use row_sheets::number::quad;
use selection_forms::alpha_forms::constants::put_constant;
use std::alloc::Global;
use temp_ir::insn::{FirstOperand, SecondOperand, TempInsn};
use temp_ir::operation::{AddressOp, Operation};

/// The text of a first operand.
fn base_text(base: FirstOperand) -> &'static str {
    match base {
        FirstOperand::Zero => "$31",
        FirstOperand::Temp(_) => "t0",
    }
}

/// The mnemonic of an address.
fn address_name(op: AddressOp) -> &'static str {
    match op {
        AddressOp::Lda => "lda",
        AddressOp::Ldah => "ldah",
    }
}

/// The mnemonic of an operation that a constant is made by.
fn operation_name(op: Operation) -> Result<&'static str> {
    match op {
        Operation::Bis => Ok("bis"),
        Operation::Sll => Ok("sll"),
        Operation::Srl => Ok("srl"),
        Operation::Zapnot => Ok("zapnot"),
        _ => bail!("an operation of no constant: {op:?}"),
    }
}

/// The text of an instruction of a constant.
fn insn_text(alloc: Global, insn: &TempInsn) -> Result<String> {
    match insn {
        TempInsn::Address { op, base, plus, .. } => {
            let name = address_name(*op);
            let base = base_text(*base);
            Ok(format!(in alloc; "{name} t0, {plus}({base})")?)
        }
        TempInsn::Operate {
            op,
            left,
            right: SecondOperand::Literal(number),
            ..
        } => {
            let name = operation_name(*op)?;
            let base = base_text(*left);
            Ok(format!(in alloc; "{name} {base}, {number}, t0")?)
        }
        _ => bail!("an instruction of no constant: {insn:?}"),
    }
}

/// The instructions that make a word in temporary 0.
pub fn answer(alloc: Global, given: &str) -> Result<Vec<u8>> {
    let mut code = Block::new(alloc);
    put_constant(&mut code, 0, quad(given)?)?;
    let mut text = String::new(alloc);
    for line in code.insns.iter() {
        let (_id, insn) = line;
        if !text.is_empty() {
            text.push_str("; ")?;
        }
        text.push_str(&insn_text(alloc, insn)?)?;
    }
    text.push('\n')?;
    Ok(text.into_bytes())
}
