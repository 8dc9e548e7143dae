//! Calls of a memory with their answers. Each row goes on with the memory that the row before it left.

ghost use Rattle.std.specs.Prelude.{IfOk, All};
ghost use Rattle.mem_model.specs.Memory.{IsByte};

use anyhow::{Context, Result, bail};
use mem_model::memory::Mem;
use mem_model::value::{MemFault, Ptr, Value};
use row_sheets::escape::unescape;
use row_sheets::number::{number, offset};
use std::alloc::Global;

/// The pointer that is written as its object and its offset.
fn pointer(text: &str) -> Result<Ptr> {
    let (object, place) = text.split_once(':').context("a pointer has a colon")?;
    Ok(Ptr {
        object: number(object)?,
        offset: offset(place)?,
    })
}

fn of_change(alloc: Global, changed: Result<(), MemFault>) -> Result<String> {
    Ok(match changed {
        Ok(()) => "done".to_string(alloc)?,
        Err(fault) => format!(in alloc; "{fault:?}")?,
    })
}

fn of_load(alloc: Global, loaded: Result<Value, MemFault>) -> Result<String> {
    Ok(match loaded {
        Ok(Value::Word(number)) => format!(in alloc; "{number:#x}")?,
        Ok(Value::Address(p)) => format!(in alloc; "{}:{}", p.object, p.offset)?,
        Ok(Value::Unset) => "unset".to_string(alloc)?,
        Err(fault) => format!(in alloc; "{fault:?}")?,
    })
}

fn make(alloc: Global, mem: &mut Mem, size: &str, is_writable: bool) -> Result<String> {
    let object = mem.alloc_object(number(size)?, is_writable)?;
    Ok(object.to_string(alloc)?)
}

/// Makes so many objects of a byte, and answers the last one's number.
fn make_many(alloc: Global, mem: &mut Mem, count: &str) -> Result<String> {
    let mut last = 0;
    for _ in 0..number(count)? {
        last = mem.alloc_object(1, true)?;
    }
    Ok(last.to_string(alloc)?)
}

fn end(alloc: Global, mem: &mut Mem, object: &str) -> Result<String> {
    let object = number(object)?;
    if mem.size_of(object).is_none() {
        return Ok("none".to_string(alloc)?);
    }
    mem.end_object(object);
    Ok("done".to_string(alloc)?)
}

fn size(alloc: Global, mem: &Mem, object: &str) -> Result<String> {
    Ok(match mem.size_of(number(object)?) {
        Some(size) => size.to_string(alloc)?,
        None => "none".to_string(alloc)?,
    })
}

fn load(alloc: Global, mem: &Mem, at: &str, width: &str) -> Result<String> {
    let at = pointer(at)?;
    let loaded = match width {
        "1" => mem.load(at, 1, false),
        "2" => mem.load(at, 2, false),
        "4" => mem.load(at, 4, false),
        "8" => mem.load(at, 8, false),
        "pointer" => mem.load(at, 8, true),
        _ => bail!("no width: {width:?}"),
    };
    of_load(alloc, loaded)
}

fn store(alloc: Global, mem: &mut Mem, at: &str, width: &str, value: &str) -> Result<String> {
    let at = pointer(at)?;
    if width == "pointer" {
        return of_change(alloc, mem.store(at, 8, Value::Address(pointer(value)?)));
    }
    let value = Value::Word(number(value)?);
    let stored = match width {
        "1" => mem.store(at, 1, value),
        "2" => mem.store(at, 2, value),
        "4" => mem.store(at, 4, value),
        "8" => mem.store(at, 8, value),
        _ => bail!("no width: {width:?}"),
    };
    of_change(alloc, stored)
}

fn copy(alloc: Global, mem: &mut Mem, ends: [&str; 2], size: &str, align: &str) -> Result<String> {
    let [to, from] = ends;
    let align = u32::try_from(number(align)?)?;
    let copied = mem.copy(pointer(to)?, pointer(from)?, number(size)?, align);
    of_change(alloc, copied)
}

/// The cells of bytes.
fn cells(alloc: Global, bytes: &[u8]) -> Result<Vec<Value>>
    ensures { IfOk result (λ cells. All IsByte cells.items) }
{
    let mut cells = Vec::new(alloc);
    for byte in bytes {
        cells.push(Value::Word(u64::from(*byte)))?;
    }
    Ok(cells)
}

fn init(alloc: Global, mem: &mut Mem, at: &str, bytes: &str) -> Result<String> {
    let bytes = unescape(alloc, bytes)?;
    let cells = cells(alloc, bytes.as_slice())?;
    of_change(alloc, mem.init(pointer(at)?, cells.as_slice()))
}

/// The accesses to objects.
fn access(alloc: Global, mem: &mut Mem, words: &[&str]) -> Result<String> {
    match words {
        ["load", at, width] => load(alloc, mem, at, width),
        ["store", at, width, value] => store(alloc, mem, at, width, value),
        ["copy", to, from, size, "align", align] => copy(alloc, mem, [to, from], size, align),
        ["init", at] => init(alloc, mem, at, ""),
        ["init", at, bytes] => init(alloc, mem, at, bytes),
        _ => bail!("no call of a memory"),
    }
}

/// What a call answers.
pub fn answer(alloc: Global, mem: &mut Mem, given: &str) -> Result<Vec<u8>> {
    let words: Vec<&str> = given.split(' ').collect(alloc)?;
    let mut answer = match words.as_slice() {
        ["make", size, "writable"] => make(alloc, mem, size, true)?,
        ["make", size, "constant"] => make(alloc, mem, size, false)?,
        ["make-many", count] => make_many(alloc, mem, count)?,
        ["end", object] => end(alloc, mem, object)?,
        ["size", object] => size(alloc, mem, object)?,
        _ => access(alloc, mem, words.as_slice())?,
    };
    answer.push_str("\n")?;
    Ok(answer.into_bytes())
}
