//! Sequences of calls of a table of names.

use anyhow::{Context, Result, bail};
use c_typing_scopes::NameTable;
use row_sheets::number::number;
use std::alloc::Global;

/// Does a call, and answers what it tells.
fn call<'a>(alloc: Global, table: &mut NameTable<'a, u64>, text: &'a str) -> Result<String> {
    let (name, rest) = text.split_once(' ').context("a call has an argument")?;
    match name {
        "declare" => {
            let (name, value) = rest.split_once(' ').context("a name has a value")?;
            table.push(name.as_bytes(), number(value)?)?;
            Ok(format!(in alloc; "")?)
        }
        "leave" => {
            table.leave(usize::try_from(number(rest)?)?);
            Ok(format!(in alloc; "")?)
        }
        "find" => Ok(match table.find(rest.as_bytes()) {
            Some((place, value)) => format!(in alloc; "{place}:{value} ")?,
            None => format!(in alloc; "none ")?,
        }),
        _ => bail!("no call is {name}"),
    }
}

/// What the calls tell, and then the number of names.
pub fn answer(alloc: Global, given: &str) -> Result<Vec<u8>> {
    let mut table = NameTable::new(alloc);
    let mut text = String::new(alloc);
    for part in given.split(',') {
        let told = call(alloc, &mut table, part.trim())?;
        text.push_str(told.as_str())?;
    }
    text.push_str(format!(in alloc; "/ {}\n", table.len())?.as_str())?;
    Ok(text.into_bytes())
}
