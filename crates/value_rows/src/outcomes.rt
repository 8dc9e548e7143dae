//! The lines and the statuses of outcomes.

use anyhow::{Result, bail};
use bk_io::memory::MemSink;
use c_typing_faults::Kind;
use call_outcomes::outcome::{Outcome, SourceFault, Which, exit_code, put_line};
use row_calls::part::push_part;
use row_sheets::number::number;
use std::alloc::Global;

/// The refusal with this name, at an offset where it has one.
fn refusal(name: &str, at: &str) -> Result<SourceFault> {
    let at = u32::try_from(number(at)?)?;
    Ok(match name {
        "Lex" => SourceFault::Lex { at },
        "Syntax" => SourceFault::Syntax { at },
        _ => bail!("no refusal: {name:?}"),
    })
}

/// The kind of typing fault with this name.
fn kind(name: &str) -> Result<Kind> {
    Ok(match name {
        "MissingMain" => Kind::MissingMain,
        "UnknownName" => Kind::UnknownName,
        "Redeclared" => Kind::Redeclared,
        "NotDefined" => Kind::NotDefined,
        "BadType" => Kind::BadType,
        "NotConstant" => Kind::NotConstant,
        "BadOperand" => Kind::BadOperand,
        "NotAssignable" => Kind::NotAssignable,
        "BadConversion" => Kind::BadConversion,
        "NotFunction" => Kind::NotFunction,
        "BadCall" => Kind::BadCall,
        "NoMember" => Kind::NoMember,
        "BadLabel" => Kind::BadLabel,
        "BadJump" => Kind::BadJump,
        "BadReturn" => Kind::BadReturn,
        "BadLiteral" => Kind::BadLiteral,
        "BadInit" => Kind::BadInit,
        _ => bail!("no kind: {name:?}"),
    })
}

/// The limit with this name.
fn limit(name: &str) -> Result<Which> {
    Ok(match name {
        "Text" => Which::Text,
        "Nesting" => Which::Nesting,
        "Weight" => Which::Weight,
        "Data" => Which::Data,
        _ => bail!("no limit: {name:?}"),
    })
}

/// The outcome with this name and no more.
fn plain_outcome(name: &str) -> Result<Outcome> {
    Ok(match name {
        "Built" => Outcome::Built,
        "Printed" => Outcome::Printed,
        "Usage" => Outcome::Usage,
        "FileFault" => Outcome::FileFault,
        "InputFault" => Outcome::InputFault,
        "WriteFault" => Outcome::WriteFault,
        "NoMemory" => Outcome::NoMemory,
        _ => bail!("no outcome: {name:?}"),
    })
}

/// The outcome with this name and number.
fn numbered_outcome(name: &str, n: u64) -> Result<Outcome> {
    Ok(match name {
        "Ran" => Outcome::Ran {
            status: u8::try_from(n)?,
        },
        "Trapped" => Outcome::Trapped { code: n },
        "Stuck" => Outcome::Stuck { pc: n },
        "Budget" => Outcome::Budget { steps: n },
        "BadImage" => Outcome::BadImage { at: n },
        "BadAsm" => Outcome::BadAsm { line: n },
        _ => bail!("no outcome: {name:?}"),
    })
}

fn outcome(words: &[&str]) -> Result<Outcome> {
    match words {
        [name] => plain_outcome(name),
        ["Refused", name] => Ok(Outcome::Refused(refusal(name, "0")?)),
        ["Refused", name, at] => Ok(Outcome::Refused(refusal(name, at)?)),
        ["Refused", "Typing", at, name] => {
            let at = u32::try_from(number(at)?)?;
            Ok(Outcome::Refused(SourceFault::Typing {
                at,
                kind: kind(name)?,
            }))
        }
        ["Limit", name, n] => Ok(Outcome::Limit {
            which: limit(name)?,
            counted: number(n)?,
        }),
        [name, n] => numbered_outcome(name, number(n)?),
        _ => bail!("no outcome"),
    }
}

/// The status and the line of an outcome.
pub fn answer(alloc: Global, given: &str) -> Result<Vec<u8>> {
    let words: Vec<&str> = given.split(' ').collect(alloc)?;
    let outcome = outcome(words.as_slice())?;
    let status = exit_code(&outcome);
    let mut line = MemSink::new(alloc, 256, Vec::new(alloc))?;
    put_line(&mut line, &outcome);
    let mut shown = format!(in alloc; "status {status}")?.into_bytes();
    push_part(&mut shown, "err", line.taken_bytes())?;
    shown.push(b'\n')?;
    Ok(shown)
}
