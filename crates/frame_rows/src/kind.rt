//! The kinds of rows, each with its file.

use crate::{allocations, runs, texts};
use anyhow::Result;
use row_sheets::Table;
use std::alloc::Global;

/// What the rows of a file are given to.
#[derive(Clone, Copy, Debug)]
pub enum Kind {
    Texts,
    Runs,
    Allocations,
}

/// The kinds in the order in which they are checked.
pub const KINDS: [Kind; 3] = [Kind::Texts, Kind::Runs, Kind::Allocations];

impl Table for Kind {
    fn file(&self) -> &'static str {
        match self {
            Kind::Texts => "frames.rows",
            Kind::Runs => "frame_runs.rows",
            Kind::Allocations => "allocations.rows",
        }
    }

    fn answer(&mut self, alloc: Global, given: &str) -> Result<Vec<u8>> {
        match self {
            Kind::Texts => texts::answer(alloc, given),
            Kind::Runs => runs::answer(alloc, given),
            Kind::Allocations => allocations::answer(alloc, given),
        }
    }
}
