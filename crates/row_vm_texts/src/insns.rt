//! Instructions from their texts.

use crate::line::{Line, global, local, register};
use crate::words::{alignment, binary, builtin, comparison, shift, unary};
use anyhow::{Context, Result, bail};
use row_sheets::number::number;
use std::alloc::Global;
use suifvm_ir::insn::{TypedRegister, VmBranchOp, VmCallee, VmInsn, VmObject};
use suifvm_ir::operands::ArgumentRegisters;

/// An operation with a type on registers, if it is one.
fn operation(line: &Line<'_>) -> Result<Option<VmInsn>> {
    if let Some(op) = unary(line.operation) {
        return Ok(Some(VmInsn::Unary {
            op,
            ty: line.ty(0)?,
            destination: line.register(0)?,
            source: line.register(1)?,
        }));
    }
    if let Some(op) = binary(line.operation) {
        return Ok(Some(VmInsn::Binary {
            op,
            ty: line.ty(0)?,
            destination: line.register(0)?,
            left: line.register(1)?,
            right: line.register(2)?,
        }));
    }
    if let Some(op) = shift(line.operation) {
        return Ok(Some(VmInsn::Shift {
            op,
            ty: line.ty(0)?,
            destination: line.register(0)?,
            source: line.register(1)?,
            count: line.register(2)?,
        }));
    }
    if let Some(op) = comparison(line.operation) {
        return Ok(Some(VmInsn::Compare {
            op,
            ty: line.ty(0)?,
            destination: line.register(0)?,
            left: line.register(1)?,
            right: line.register(2)?,
        }));
    }
    Ok(None)
}

/// The load of an address.
fn address(line: &Line<'_>) -> Result<VmInsn> {
    let (name, plus) = line.operand(1)?.split_once('+').context("no `+`")?;
    let place = match global(name) {
        Some(global) => VmObject::Global(global),
        None => VmObject::Local(local(name)?),
    };
    Ok(VmInsn::LoadAddress {
        destination: line.register(0)?,
        place,
        plus: number(plus)?,
    })
}

/// What is called.
fn callee(names: &[String], name: &str) -> Result<VmCallee> {
    if let Some(builtin) = builtin(name) {
        return Ok(VmCallee::Builtin(builtin));
    }
    let at = names
        .iter()
        .position(|other| other.as_str() == name)
        .context(format_args!("no function {name:?}"))?;
    Ok(VmCallee::Function(u32::try_from(at)?))
}

/// A call.
fn call(alloc: Global, names: &[String], line: &Line<'_>) -> Result<VmInsn> {
    let destination = match line.operand(0)? {
        "-" => None,
        text => Some(register(text)?),
    };
    let mut arguments = ArgumentRegisters::new(alloc);
    for at in 2..line.count() {
        arguments.push(line.register(at)?)?;
    }
    Ok(VmInsn::Call {
        destination,
        callee: callee(names, line.operand(1)?)?,
        arguments,
    })
}

/// A return.
fn return_of(line: &Line<'_>) -> Result<VmInsn> {
    if line.count() == 0 {
        return Ok(VmInsn::Return { value: None });
    }
    Ok(VmInsn::Return {
        value: Some(TypedRegister {
            ty: line.ty(0)?,
            register: line.register(0)?,
        }),
    })
}

/// A branch.
fn branch(op: VmBranchOp, line: &Line<'_>) -> Result<VmInsn> {
    Ok(VmInsn::Branch {
        op,
        ty: line.ty(0)?,
        source: line.register(0)?,
        block: line.block(1)?,
    })
}

/// An access of memory, or a copy of it.
fn access(line: &Line<'_>) -> Result<VmInsn> {
    match line.operation {
        "lod" => Ok(VmInsn::Load {
            ty: line.memory(0)?,
            destination: line.register(0)?,
            pointer: line.register(1)?,
            plus: line.offset(2)?,
        }),
        "str" => Ok(VmInsn::Store {
            ty: line.memory(0)?,
            pointer: line.register(0)?,
            plus: line.offset(1)?,
            value: line.register(2)?,
        }),
        _ => Ok(VmInsn::Copy {
            to: line.register(0)?,
            from: line.register(1)?,
            size: line.number(2)?,
            align: alignment(line.number(3)?)?,
        }),
    }
}

/// The instruction of a text, in a program whose functions have these names.
pub fn insn(alloc: Global, names: &[String], text: &str) -> Result<VmInsn> {
    let line = Line::of(alloc, text)?;
    if let Some(insn) = operation(&line)? {
        return Ok(insn);
    }
    match line.operation {
        "ldc" => Ok(VmInsn::LoadConstant {
            ty: line.ty(0)?,
            destination: line.register(0)?,
            word: line.offset(1)?.cast_unsigned(),
        }),
        "lda" => address(&line),
        "lod" | "str" | "mcpy" => access(&line),
        "cvt" => Ok(VmInsn::Convert {
            from: line.memory(0)?,
            to: line.ty(1)?,
            destination: line.register(0)?,
            source: line.register(1)?,
        }),
        "btrue" => branch(VmBranchOp::IfTrue, &line),
        "bfalse" => branch(VmBranchOp::IfFalse, &line),
        "jmp" => Ok(VmInsn::Jump {
            block: line.block(0)?,
        }),
        "cal" => call(alloc, names, &line),
        "ret" => return_of(&line),
        "mrk" => Ok(VmInsn::Mark),
        "nop" => Ok(VmInsn::Nop),
        _ => bail!("no instruction: {text:?}"),
    }
}
