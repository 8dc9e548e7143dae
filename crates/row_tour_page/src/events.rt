//! The lines of a journal, in words.

use anyhow::{Context, Result, bail};
use std::alloc::Global;

/// A line of a journal, word by word.
#[derive(Clone, Copy)]
struct Event<'a> {
    name: &'a str,
    first: &'a str,
    second: &'a str,
    third: &'a str,
}

/// The words of a line. Those that it does not have are empty.
fn event_of(line: &str) -> Event<'_> {
    let mut words = line.split(' ');
    Event {
        name: words.next().unwrap_or(""),
        first: words.next().unwrap_or(""),
        second: words.next().unwrap_or(""),
        third: words.next().unwrap_or(""),
    }
}

/// The instruction with a number within its function.
fn instruction_at<'a>(instructions: &'a [String], number: &str) -> Result<&'a str> {
    let number = number.parse::<usize>().context("a number")?;
    let instruction = instructions.get(number).context("no such instruction")?;
    Ok(instruction.as_str())
}

/// What a line of the journal of a function with these instructions says.
fn said_of(alloc: Global, line: &str, instructions: &[String]) -> Result<String> {
    let Event {
        name,
        first,
        second,
        third,
    } = event_of(line);
    match name {
        "visit" => Ok(instruction_at(instructions, first)?.to_string(alloc)?),
        "assign" => Ok(format!(in alloc; "  {first} gets {second}")?),
        "evict" => Ok(format!(in alloc; "  {first} leaves {second} for its slot")?),
        "store" => Ok(format!(in alloc; "  the slot of {first} gets what stands in {second}")?),
        "load" => Ok(format!(in alloc; "  {first} comes back, from its slot to {second}")?),
        "move" => Ok(format!(in alloc; "  {first} moves from {second} to {third}")?),
        "write" => Ok(format!(in alloc; "  {first} is written in {second}")?),
        _ => bail!("no line of a journal: {line}"),
    }
}

/// Writes the lines of the journal of a function with these instructions, each with what it says.
pub fn put_events(rt: &HostRuntime, lines: &[String], instructions: &[String]) -> Result<()> {
    for line in lines {
        let line = line.as_str();
        let said = said_of(rt.alloc(), line, instructions)?;
        println!(rt; "{line:<18}{said}")?;
    }
    Ok(())
}
