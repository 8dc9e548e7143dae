//! The moves that wait, and those that are made.
//!
//! `sources` has for each register the one from which it waits to be filled, and `reads` how many registers wait to be
//! filled from it. A register can be filled once nothing waits for what it holds.

ghost use Rattle.std.specs.Prelude.{◌≡◌, ◌≢◌, ℕ, ◌-◌, ◌<◌, ◌++◌, ◌∷◌, [], length, slice_set, slice_index, map, List, IfOk, OnOk, None};
ghost use Rattle.par_move.specs.Moves.{ParallelMove, HaveDistinctTargets, IsInNoMove, HasLength};
ghost use Rattle.par_move.specs.model.Rest.{rest, IsCounted, source_at, waits, ready_at, Released, redirected, after_break, Opened, Notes};

use std::alloc::{AllocError, Global};

/// The number of registers that a `u8` can name.
const REGISTERS: usize = 256;

/// What stands in one register goes to another one.
#[derive(Clone, Copy, Debug, PartialEq, Eq)]
pub struct Move {
    /// The register that is read.
    pub from: u8,
    /// The register that is written.
    pub to: u8,
}

/// From where a register can be filled now: it waits for that register, and nothing waits for it.
fn ready(to: u8, sources: &[Option<u8>], reads: &[u16]) -> Option<u8>
    requires sources { length sources.now ≡ 256 }
    requires reads { length reads.now ≡ 256 }
    ensures { result ≡ ready_at sources.now reads.now to }
{
    if reads[to as usize] == 0 {
        sources[to as usize]
    } else {
        None
    }
}

/// Makes a move that waited.
fn make(
    from: u8,
    to: u8,
    sources: &mut [Option<u8>],
    reads: &mut [u16],
    made: &mut Vec<Move>,
) -> Result<(), AllocError>
    requires sources { length sources.old ≡ 256 }
    requires reads { length reads.old ≡ 256 }
    requires read { 0 < slice_index reads.old from }
    ensures sources { OnOk result (sources.new ≡ slice_set sources.old to None) }
    ensures reads { OnOk result (reads.new ≡ slice_set reads.old from (slice_index reads.old from - 1)) }
    ensures made { OnOk result (made.new.items ≡ made.old.items ++ record { from = from; to = to } ∷ []) }
{
    made.push(Move { from, to })?;
    sources[to as usize] = None;
    reads[from as usize] -= 1;
    Ok(())
}

/// Makes the move that a register waits for, then the one that the register waits for that was read, and so on, as
/// long as that can be made.
fn release(
    start: u8,
    sources: &mut [Option<u8>],
    reads: &mut [u16],
    made: &mut Vec<Move>,
) -> Result<(), AllocError>
    requires counted { IsCounted sources.old reads.old }
    ensures { OnOk result (Released start
        (rest sources.old reads.old made.old.items) (rest sources.new reads.new made.new.items)) }
{
    let mut to = start;
    while let Some(from) = ready(to, sources, reads) {
        make(from, to, sources, reads, made)?;
        to = from;
    }
    Ok(())
}

fn redirect(source: Option<u8>, first: u8, scratch: u8) -> Option<u8>
    ensures { result ≡ redirected first scratch source }
{
    match source {
        None => None,
        Some(from) => Some(if from == first { scratch } else { from }),
    }
}

/// What waits for a register waits for the scratch from now on.
fn redirect_all(first: u8, scratch: u8, sources: &mut [Option<u8>])
    ensures { sources.new ≡ map (redirected first scratch) sources.old }
{
    for source in sources.iter_mut() {
        *source = redirect(*source, first, scratch);
    }
}

/// Makes the moves of the cycle that a register is on, through the scratch.
fn break_cycle(
    first: u8,
    scratch: u8,
    sources: &mut [Option<u8>],
    reads: &mut [u16],
    made: &mut Vec<Move>,
) -> Result<(), AllocError>
    requires counted { IsCounted sources.old reads.old }
    requires still { (i : ℕ) → i < 256 → ready_at sources.old reads.old i ≡ None }
    requires apart { first ≢ scratch }
    requires idle { source_at sources.old scratch ≡ None }
    ensures { OnOk result (Released first
        (after_break first scratch (rest sources.old reads.old made.old.items))
        (rest sources.new reads.new made.new.items)) }
{
    made.push(Move {
        from: first,
        to: scratch,
    })?;
    redirect_all(first, scratch, sources);
    reads[scratch as usize] = reads[first as usize];
    reads[first as usize] = 0;
    release(first, sources, reads, made)
}

/// A move waits, if it is between different registers.
fn note(m: Move, sources: &mut [Option<u8>], reads: &mut [u16])
    requires free { source_at sources.old m.to ≡ None }
    requires counted { IsCounted sources.old reads.old }
    ensures named { (m.from < 256) × (m.to < 256) }
    ensures notes { Notes m sources.old reads.old sources.new reads.new }
{
    if m.from != m.to {
        sources[m.to as usize] = Some(m.from);
        reads[m.from as usize] += 1;
    }
}

/// Moves that, made one after the other, have the effect of the given ones at once on every register but the scratch:
/// as many as there are between different registers, and one more for each cycle.
pub fn sequence(alloc: Global, moves: &[Move], scratch: u8) -> Result<Vec<Move>, AllocError>
    requires targets { HaveDistinctTargets moves.now }
    requires scratch { IsInNoMove scratch moves.now }
    ensures moves { IfOk result (λ made. ParallelMove moves.now scratch made.items) }
    ensures length { IfOk result (λ made. HasLength moves.now made.items) }
{
    let mut sources: [Option<u8>; REGISTERS] = [None; REGISTERS];
    let mut reads: [u16; REGISTERS] = [0; REGISTERS];
    let mut made = Vec::new(alloc);
    for m in moves {
        note(*m, &mut sources, &mut reads);
    }
    for r in 0..REGISTERS {
        release(r as u8, &mut sources, &mut reads, &mut made)?;
    }
    for c in 0..REGISTERS {
        if sources[c].is_some() {
            break_cycle(c as u8, scratch, &mut sources, &mut reads, &mut made)?;
        }
    }
    Ok(made)
}
