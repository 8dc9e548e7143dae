//! Allocations that are given whole, as text.

use alloc_lines::{alloc_text, journal_text};
use alloc_model::allocation::{Allocation, Event, Loc, TempPlace, Transfer};
use anyhow::{Context, Result, bail, ensure};
use bk_containers::Seq;
use row_sheets::number::number;
use row_temp_texts::behind;
use row_temp_texts::reader::{TempReader, allocation, register, transfer};
use std::alloc::Global;

/// What the lines of a row say.
#[derive(Drop)]
struct Stated {
    top: Vec<Seq<TempPlace>>,
    bottom: Vec<Seq<TempPlace>>,
    journal: Seq<Event>,
    /// The lines of the function, of transfers and of edges.
    others: String,
}

/// A register, or the slot of a temporary.
fn place(text: &str) -> Result<Loc> {
    match register(text) {
        Ok(number) => Ok(Loc::Reg(number)),
        Err(_) => Ok(Loc::Slot(behind(text, "s")?)),
    }
}

/// Puts temporaries with their places into the last of these maps.
fn put_places(maps: &mut Vec<Seq<TempPlace>>, given: &str) -> Result<()> {
    let map = maps.last_mut().context("no block was begun")?;
    for text in given.split(' ') {
        let (temp, at) = text.split_once('=').context("a temporary has a place")?;
        map.push(TempPlace {
            temp: behind(temp, "t")?,
            place: place(at)?,
        })?;
    }
    Ok(())
}

/// The event of a transfer.
fn event_of(transfer: Transfer) -> Event {
    match transfer {
        Transfer::Store { temp, reg } => Event::Store { temp, reg },
        Transfer::Load { temp, reg } => Event::Load { temp, reg },
        Transfer::Shift { temp, from, to } => Event::Shift { temp, from, to },
    }
}

/// An event.
fn event(text: &str) -> Result<Event> {
    let (word, rest) = text
        .split_once(' ')
        .context("an event has a word in front")?;
    if let Some(transfer) = transfer(word, rest)? {
        return Ok(event_of(transfer));
    }
    if word == "visit" {
        return Ok(Event::Visit(u32::try_from(number(rest)?)?));
    }
    let (temp, reg) = rest.split_once(' ').context("an event has a register")?;
    let temp = behind(temp, "t")?;
    let reg = register(reg)?;
    match word {
        "assign" => Ok(Event::Assign { temp, reg }),
        "evict" => Ok(Event::Evict { temp, reg }),
        "write" => Ok(Event::Write { temp, reg }),
        _ => bail!("no event: {word:?}"),
    }
}

/// Takes a line.
fn take(alloc: Global, stated: &mut Stated, line: &str) -> Result<()> {
    match line.split_once(' ') {
        Some(("top", places)) => put_places(&mut stated.top, places),
        Some(("bottom", places)) => put_places(&mut stated.bottom, places),
        Some(("event", text)) => {
            stated.journal.push(event(text)?)?;
            Ok(())
        }
        _ => {
            if line.starts_with('B') {
                stated.top.push(Seq::new(alloc))?;
                stated.bottom.push(Seq::new(alloc))?;
            }
            stated.others.push_str(line)?;
            stated.others.push('\n')?;
            Ok(())
        }
    }
}

/// What the lines of a row say.
fn stated_by(alloc: Global, given: &str) -> Result<Stated> {
    let mut stated = Stated {
        top: Vec::new(alloc),
        bottom: Vec::new(alloc),
        journal: Seq::new(alloc),
        others: String::new(alloc),
    };
    for line in given.lines() {
        take(alloc, &mut stated, line)?;
    }
    Ok(stated)
}

/// The function of some lines, with the transfers, registers and edges that they state.
fn placed(alloc: Global, given: &str) -> Result<Allocation> {
    let mut reader = TempReader::of(alloc, given)?;
    let function = reader.functions.pop().context("a row has a function")?;
    let placement = reader.placements.pop().context("it has a placement")?;
    ensure!(reader.functions.is_empty(), "a row has one function");
    allocation(alloc, &function, placement)
}

/// The allocation of a row.
fn allocation_of(alloc: Global, given: &str) -> Result<Allocation> {
    let Stated {
        top,
        bottom,
        journal,
        others,
    } = stated_by(alloc, given)?;
    let mut a = placed(alloc, others.as_str())?;
    a.top = Seq::from_vec(top);
    a.bottom = Seq::from_vec(bottom);
    a.journal = journal;
    Ok(a)
}

/// The text of the allocation of a row, and then that of its journal.
pub fn answer(alloc: Global, given: &str) -> Result<Vec<u8>> {
    let a = allocation_of(alloc, given)?;
    let mut text = alloc_text(alloc, &a)?;
    text.extend_from_slice(journal_text(alloc, &a)?.as_slice())?;
    Ok(text)
}
