//! The forms of a block, side by side.

use crate::lines::is_instruction;
use crate::words::Line;
use anyhow::{Context, Result, bail};
use std::alloc::{AllocError, Global};

/// Whether a line begins a part of a text: a function, a block, or what is done on an edge.
fn is_head(line: &str) -> bool {
    line.starts_with("func ") || line.starts_with('B') || line.starts_with("edge ")
}

/// The lines behind the one that begins with a name, up to the next part.
pub fn part_lines(alloc: Global, text: &str, name: &str) -> Result<Vec<String>, AllocError> {
    let mut is_within = false;
    let mut found = Vec::new(alloc);
    for line in text.lines() {
        if is_head(line) {
            is_within = line.starts_with(name);
        } else if is_within {
            found.push(line.to_string(alloc)?)?;
        }
    }
    Ok(found)
}

/// Writes a row: the instruction over temporaries, the line over slots, and the word.
fn put_row(rt: &HostRuntime, temporary: &str, place: &str, line: Option<&Line>) -> Result<()> {
    match line {
        Some(line) => {
            let item = line.item.as_str();
            let word = line.word.context("a label has no word")?;
            println!(rt; "{temporary:<23}{place:<22}{item:<19}{word:08x}")?;
        }
        None => println!(rt; "{temporary:<23}{place}")?,
    }
    Ok(())
}

/// What stands above the rows.
const COLUMNS: &str = "temporaries            slots                 assembly           word";

/// Writes the rows of a block. Each of its instructions stands in a line over slots, and each of these is one word, but
/// that `mrk` is none.
pub fn put_rows(
    rt: &HostRuntime,
    temporaries: &[String],
    places: &[String],
    lines: &[Line],
) -> Result<()> {
    println!(rt; "{COLUMNS}")?;
    let mut instructions = temporaries.iter();
    let mut words = lines.iter();
    for place in places {
        let place = place.as_str();
        let line = if place.ends_with(" mrk") {
            None
        } else {
            words.next()
        };
        if is_instruction(place) {
            let temporary = instructions.next().context("too few instructions")?;
            put_row(rt, temporary.as_str(), place, line)?;
        } else {
            put_row(rt, "", place, line)?;
        }
    }
    if words.next().is_some() || instructions.next().is_some() {
        bail!("a form of the block is longer than another one");
    }
    Ok(())
}
