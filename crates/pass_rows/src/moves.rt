//! Moves that are to happen at once.

use crate::conditions::{have_distinct_targets, is_in_no_move};
use anyhow::{Context, Result, bail};
use par_move::{Move, sequence};
use std::alloc::{AllocError, Global};

fn register(text: &str) -> Result<u8> {
    let Some(digits) = text.strip_prefix("$") else {
        bail!("no register: {text:?}");
    };
    digits
        .parse::<u8>()
        .context(format_args!("reading {text:?}"))
}

fn one_move(text: &str) -> Result<Move> {
    let Some((from, to)) = text.split_once(" to ") else {
        bail!("no move: {text:?}");
    };
    Ok(Move {
        from: register(from)?,
        to: register(to)?,
    })
}

fn moves(alloc: Global, text: &str) -> Result<Vec<Move>> {
    let mut moves = Vec::new(alloc);
    for part in text.split(", ") {
        moves.push(one_move(part)?)?;
    }
    Ok(moves)
}

/// What registers hold after moves, where each held its own number before.
fn after(moves: &[Move]) -> [u8; 256] {
    let mut held = [0u8; 256];
    for register in 0..256usize {
        held[register] = register as u8;
    }
    for made in moves {
        held[made.to as usize] = held[made.from as usize];
    }
    held
}

/// How many moves these are, and each register but the scratch that holds what another one held before.
fn effect(alloc: Global, made: &[Move], scratch: u8) -> Result<String, AllocError> {
    let held = after(made);
    let mut text = format!(in alloc; "{} moves", made.len())?;
    for register in 0..256usize {
        let before = held[register] as usize;
        if before != register && register != scratch as usize {
            text.push_str(&format!(in alloc; ", ${register} has ${before}")?)?;
        }
    }
    text.push_str("\n")?;
    Ok(text)
}

/// What the moves do that are made for the moves of a row, `$FROM to $TO, $FROM to $TO .. with $SCRATCH`: how many they
/// are, and which registers then hold what others held.
pub fn answer(alloc: Global, given: &str) -> Result<Vec<u8>> {
    let Some((listed, scratch)) = given.rsplit_once(" with ") else {
        bail!("no scratch: {given:?}");
    };
    let moves = moves(alloc, listed)?;
    let scratch = register(scratch)?;
    if !have_distinct_targets(moves.as_slice()) {
        bail!("two moves to one register: {listed:?}");
    }
    if !is_in_no_move(scratch, moves.as_slice()) {
        bail!("the scratch is in a move: {given:?}");
    }
    let made = sequence(alloc, moves.as_slice(), scratch)?;
    Ok(effect(alloc, made.as_slice(), scratch)?.into_bytes())
}
