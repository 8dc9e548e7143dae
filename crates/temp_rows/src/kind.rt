//! The kinds of rows, each with its file.

use crate::{coalescings, journals, lives, needs, placements, runs, scanned};
use anyhow::Result;
use row_sheets::Table;
use std::alloc::Global;

/// What the rows of a file are given to.
#[derive(Clone, Copy, Debug)]
pub enum Kind {
    Runs,
    Placements,
    Journals,
    Scans,
    Needs,
    Coalescings,
    CoalescedRuns,
    Lifetimes,
}

/// The kinds in the order in which they are checked.
pub const KINDS: [Kind; 8] = [
    Kind::Runs,
    Kind::Placements,
    Kind::Journals,
    Kind::Scans,
    Kind::Needs,
    Kind::Coalescings,
    Kind::CoalescedRuns,
    Kind::Lifetimes,
];

impl Table for Kind {
    fn file(&self) -> &'static str {
        match self {
            Kind::Runs => "temp_runs.rows",
            Kind::Placements => "plain.rows",
            Kind::Journals => "journals.rows",
            Kind::Scans => "scanned.rows",
            Kind::Needs => "needs.rows",
            Kind::Coalescings => "coalescings.rows",
            Kind::CoalescedRuns => "coalesced_runs.rows",
            Kind::Lifetimes => "live.rows",
        }
    }

    fn answer(&mut self, alloc: Global, given: &str) -> Result<Vec<u8>> {
        match self {
            Kind::Runs => runs::answer(alloc, given),
            Kind::Placements => placements::answer(alloc, given),
            Kind::Journals => journals::answer(alloc, given),
            Kind::Scans => scanned::answer(alloc, given),
            Kind::Needs => needs::answer(alloc, given),
            Kind::Coalescings => coalescings::answer(alloc, given, true),
            Kind::CoalescedRuns => coalescings::answer(alloc, given, false),
            Kind::Lifetimes => lives::answer(alloc, given),
        }
    }
}
