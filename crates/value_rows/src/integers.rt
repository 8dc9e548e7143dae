//! Operations on C's integers.

use anyhow::{Result, bail};
use bk_arithmetic::integer_type::IntegerType;
use bk_arithmetic::outcome::ArithmeticOutcome;
use row_sheets::number::quad;
use std::alloc::Global;

/// The type with a name.
fn type_with_name(name: &str) -> Result<IntegerType> {
    Ok(match name {
        "char" => IntegerType::Char,
        "unsigned-char" => IntegerType::UnsignedChar,
        "short" => IntegerType::Short,
        "unsigned-short" => IntegerType::UnsignedShort,
        "int" => IntegerType::Int,
        "unsigned-int" => IntegerType::UnsignedInt,
        "long" => IntegerType::Long,
        "unsigned-long" => IntegerType::UnsignedLong,
        _ => bail!("no type: {name:?}"),
    })
}

/// The name of a type, by its size and sign.
fn name_of(of: IntegerType) -> &'static str {
    match (of.bytes(), of.is_signed()) {
        (1, true) => "char",
        (1, false) => "unsigned-char",
        (2, true) => "short",
        (2, false) => "unsigned-short",
        (4, true) => "int",
        (4, false) => "unsigned-int",
        (8, true) => "long",
        _ => "unsigned-long",
    }
}

fn shown_outcome(alloc: Global, outcome: ArithmeticOutcome) -> Result<String> {
    Ok(match outcome {
        ArithmeticOutcome::Word(word) => format!(in alloc; "word {word:x}\n")?,
        ArithmeticOutcome::Trap(code) => format!(in alloc; "trap {code}\n")?,
        ArithmeticOutcome::Undefined => "undefined\n".to_string(alloc)?,
    })
}

fn shown_word(alloc: Global, word: u64) -> Result<String> {
    Ok(format!(in alloc; "{word:x}\n")?)
}

fn shown_type(alloc: Global, of: IntegerType) -> Result<String> {
    let name = name_of(of);
    if IntegerType::from_parts(of.bytes(), of.is_signed()) != Some(of) {
        bail!("not the type of its parts: {name}");
    }
    Ok(format!(in alloc; "{name}\n")?)
}

/// An operation on two words of a type.
fn of_two(alloc: Global, operation: &str, of: IntegerType, a: u64, b: u64) -> Result<String> {
    if !of.is_word(a) || !of.is_word(b) {
        bail!("no words of the type");
    }
    match operation {
        "add" => shown_outcome(alloc, of.add(a, b)),
        "subtract" => shown_outcome(alloc, of.subtract(a, b)),
        "multiply" => shown_outcome(alloc, of.multiply(a, b)),
        "divide" => shown_outcome(alloc, of.divide(a, b)),
        "remainder" => shown_outcome(alloc, of.remainder(a, b)),
        "and" => shown_word(alloc, of.and(a, b)),
        "or" => shown_word(alloc, of.or(a, b)),
        "exclusive-or" => shown_word(alloc, of.exclusive_or(a, b)),
        "less" => Ok(format!(in alloc; "{}\n", of.is_less(a, b))?),
        "less-or-equal" => Ok(format!(in alloc; "{}\n", of.is_less_or_equal(a, b))?),
        "equal" => Ok(format!(in alloc; "{}\n", of.is_equal(a, b))?),
        _ => bail!("no operation on two words: {operation:?}"),
    }
}

/// An operation on a word of a type.
fn of_one(alloc: Global, operation: &str, of: IntegerType, a: u64) -> Result<String> {
    match operation {
        "negate" => shown_outcome(alloc, of.negate(a)),
        "complement" => shown_word(alloc, of.complement(a)),
        _ => bail!("no operation on one word: {operation:?}"),
    }
}

/// A shift of a word of a type by a count in a type of its own.
fn shift(
    alloc: Global,
    operation: &str,
    types: (IntegerType, IntegerType),
    a: u64,
    count: u64,
) -> Result<String> {
    match operation {
        "shift-left" => shown_outcome(alloc, types.0.shift_left(types.1, a, count)),
        "shift-right" => shown_outcome(alloc, types.0.shift_right(types.1, a, count)),
        _ => bail!("no shift: {operation:?}"),
    }
}

/// What comes for an operation.
pub fn answer(alloc: Global, given: &str) -> Result<Vec<u8>> {
    let parts: Vec<&str> = given.split(' ').collect(alloc)?;
    let shown = match parts.as_slice() {
        ["promoted", of] => shown_type(alloc, type_with_name(of)?.promote())?,
        ["common", of, other] => shown_type(
            alloc,
            type_with_name(of)?.common(type_with_name(other)?),
        )?,
        ["convert", from, to, word] => shown_word(
            alloc,
            type_with_name(from)?.convert(type_with_name(to)?, quad(word)?),
        )?,
        [operation, of, word] => of_one(alloc, operation, type_with_name(of)?, quad(word)?)?,
        [operation, of, a, b] => of_two(alloc, operation, type_with_name(of)?, quad(a)?, quad(b)?)?,
        [operation, of, by, a, count] => {
            shift(
                alloc,
                operation,
                (type_with_name(of)?, type_with_name(by)?),
                quad(a)?,
                quad(count)?,
            )?
        }
        _ => bail!("no operation: {given:?}"),
    };
    Ok(shown.into_bytes())
}
