//! Instructions from their texts.

use crate::words::{branch, extend, fixed_register, load, operation, routine, store};
use anyhow::{Context, Result, bail};
use row_sheets::number::{number, offset};
use std::alloc::Global;
use suifvm_ir::insn::VmObject;
use temp_ir::insn::{FirstOperand, FixedRegister, SecondOperand, TempInsn};
use temp_ir::operation::{AddressOp, Service};

/// What the text of an instruction does not say.
#[derive(Drop)]
pub struct Around {
    /// How many parameters each function has.
    pub params: Vec<u32>,
    /// The number that stands in register 0, which says what a service is.
    pub service: i64,
}

/// The number behind a front.
pub fn behind(text: &str, front: &str) -> Result<u32> {
    let digits = text
        .strip_prefix(front)
        .context(format_args!("{text:?} does not begin with {front:?}"))?;
    Ok(u32::try_from(number(digits)?)?)
}

/// A temporary.
fn temp(text: &str) -> Result<u32> {
    behind(text, "t")
}

/// A first operand.
fn source(text: &str) -> Result<FirstOperand> {
    match text {
        "$31" => Ok(FirstOperand::Zero),
        _ => Ok(FirstOperand::Temp(temp(text)?)),
    }
}

/// A second operand.
fn operand(text: &str) -> Result<SecondOperand> {
    match temp(text) {
        Ok(temp) => Ok(SecondOperand::Temp(temp)),
        Err(_) => Ok(SecondOperand::Literal(u8::try_from(number(text)?)?)),
    }
}

/// A displacement and its base.
fn base(text: &str) -> Result<(i16, &str)> {
    let (plus, rest) = text.split_once('(').context("no bracket")?;
    let base = rest.strip_suffix(")").context("no closing bracket")?;
    Ok((i16::try_from(offset(plus)?)?, base))
}

/// An operand of a list.
fn part<'a>(parts: &[&'a str], at: usize) -> Result<&'a str> {
    parts.get(at).copied().context("an operand is missing")
}

/// The address of an object.
fn object(destination: u32, name: &str, plus: &str) -> Result<TempInsn> {
    let place = match behind(name, "g") {
        Ok(global) => VmObject::Global(global),
        Err(_) => VmObject::Local(behind(name, "m")?),
    };
    Ok(TempInsn::ObjectAddress {
        destination,
        place,
        plus: number(plus)?,
    })
}

/// The computing of an address, or a fixed register that is set to a number.
fn address(op: AddressOp, around: &mut Around, parts: &[&str]) -> Result<TempInsn> {
    if let Some(register) = fixed_register(part(parts, 0)?) {
        let (number, _zero) = base(part(parts, 1)?)?;
        if register == FixedRegister::Value {
            around.service = i64::from(number);
        }
        return Ok(TempInsn::SetFixed { register, number });
    }
    let destination = temp(part(parts, 0)?)?;
    if let Some((name, plus)) = part(parts, 1)?.split_once('+') {
        return object(destination, name, plus);
    }
    let (plus, text) = base(part(parts, 1)?)?;
    Ok(TempInsn::Address {
        op,
        destination,
        base: source(text)?,
        plus,
    })
}

/// An operation, or a move from or to a fixed register.
fn operate(word: &str, parts: &[&str]) -> Result<Option<TempInsn>> {
    let Some(op) = operation(word) else {
        return Ok(None);
    };
    if let Some(register) = fixed_register(part(parts, 1)?) {
        return Ok(Some(TempInsn::FromFixed {
            destination: temp(part(parts, 2)?)?,
            register,
        }));
    }
    if let Some(register) = fixed_register(part(parts, 2)?) {
        return Ok(Some(TempInsn::ToFixed {
            register,
            source: temp(part(parts, 1)?)?,
        }));
    }
    Ok(Some(TempInsn::Operate {
        op,
        destination: temp(part(parts, 2)?)?,
        left: source(part(parts, 0)?)?,
        right: operand(part(parts, 1)?)?,
    }))
}

/// A load, or the read of an argument place.
fn load_of(word: &str, parts: &[&str]) -> Result<Option<TempInsn>> {
    let Some(op) = load(word) else {
        return Ok(None);
    };
    let destination = temp(part(parts, 0)?)?;
    if let Ok(number) = behind(part(parts, 1)?, "in") {
        return Ok(Some(TempInsn::ReadArgument {
            destination,
            number,
        }));
    }
    let (plus, text) = base(part(parts, 1)?)?;
    Ok(Some(TempInsn::Load {
        op,
        destination,
        pointer: temp(text)?,
        plus,
    }))
}

/// A store, or the write of an argument place.
fn store_of(word: &str, parts: &[&str]) -> Result<Option<TempInsn>> {
    let Some(op) = store(word) else {
        return Ok(None);
    };
    if let Ok(number) = behind(part(parts, 1)?, "out") {
        return Ok(Some(TempInsn::WriteArgument {
            number,
            source: temp(part(parts, 0)?)?,
        }));
    }
    let (plus, text) = base(part(parts, 1)?)?;
    Ok(Some(TempInsn::Store {
        op,
        value: source(part(parts, 0)?)?,
        pointer: temp(text)?,
        plus,
    }))
}

/// A branch.
fn branch_of(word: &str, parts: &[&str]) -> Result<Option<TempInsn>> {
    let Some(op) = branch(word) else {
        return Ok(None);
    };
    Ok(Some(TempInsn::Branch {
        op,
        source: temp(part(parts, 0)?)?,
        block: behind(part(parts, 1)?, "B")?,
    }))
}

/// A sign extension.
fn extend_of(word: &str, parts: &[&str]) -> Result<Option<TempInsn>> {
    let Some(op) = extend(word) else {
        return Ok(None);
    };
    Ok(Some(TempInsn::Extend {
        op,
        destination: temp(part(parts, 1)?)?,
        source: operand(part(parts, 0)?)?,
    }))
}

/// A call of a function, whose arguments are as many as it takes, or of a division routine.
fn call(around: &Around, parts: &[&str]) -> Result<TempInsn> {
    let callee = part(parts, 1)?;
    if let Some(routine) = routine(callee) {
        return Ok(TempInsn::Divide { routine });
    }
    let function = u32::try_from(number(callee)?)?;
    let arguments = around
        .params
        .get(function as usize)
        .copied()
        .context("no such function")?;
    Ok(TempInsn::Call {
        function,
        arguments,
    })
}

/// A call of the machine.
fn serve(around: &Around, parts: &[&str]) -> Result<TempInsn> {
    let service = match (part(parts, 0)?, around.service) {
        ("170", _) => Service::Trap,
        ("131", 1) => Service::End,
        ("131", 2) => Service::PutByte,
        ("131", 3) => Service::GetByte,
        _ => bail!("no service"),
    };
    Ok(TempInsn::Serve { service })
}

/// What has a word of its own.
fn other(around: &mut Around, word: &str, parts: &[&str]) -> Result<TempInsn> {
    match word {
        "lda" => address(AddressOp::Lda, around, parts),
        "ldah" => address(AddressOp::Ldah, around, parts),
        "br" => Ok(TempInsn::Jump {
            block: behind(part(parts, 1)?, "B")?,
        }),
        "bsr" => call(around, parts),
        "call_pal" => serve(around, parts),
        "ret" => Ok(TempInsn::Return {
            with_value: !parts.is_empty(),
        }),
        "mrk" => Ok(TempInsn::Mark),
        _ => bail!("no instruction: {word:?}"),
    }
}

/// The instruction of a text.
pub fn insn(alloc: Global, around: &mut Around, text: &str) -> Result<TempInsn> {
    let (word, rest) = text.split_once(' ').unwrap_or((text, ""));
    let mut list = Vec::new(alloc);
    for text in rest.split(", ") {
        if !text.is_empty() {
            list.push(text)?;
        }
    }
    let parts = list.as_slice();
    if let Some(insn) = operate(word, parts)? {
        return Ok(insn);
    }
    if let Some(insn) = load_of(word, parts)? {
        return Ok(insn);
    }
    if let Some(insn) = store_of(word, parts)? {
        return Ok(insn);
    }
    if let Some(insn) = branch_of(word, parts)? {
        return Ok(insn);
    }
    if let Some(insn) = extend_of(word, parts)? {
        return Ok(insn);
    }
    other(around, word, parts)
}
