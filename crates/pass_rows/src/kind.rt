//! The kinds of rows, each with its file.

use crate::{cleaned, flows, graphs, moves};
use anyhow::Result;
use row_sheets::Table;
use std::alloc::Global;

/// What the rows of a file are given to.
#[derive(Clone, Copy, Debug)]
pub enum Kind {
    Cleaned,
    Flows,
    Graphs,
    Moves,
}

/// The kinds in the order in which they are checked.
pub const KINDS: [Kind; 4] = [Kind::Cleaned, Kind::Flows, Kind::Graphs, Kind::Moves];

impl Table for Kind {
    fn file(&self) -> &'static str {
        match self {
            Kind::Cleaned => "cleaned.rows",
            Kind::Flows => "flows.rows",
            Kind::Graphs => "graphs.rows",
            Kind::Moves => "moves.rows",
        }
    }

    fn answer(&mut self, alloc: Global, given: &str) -> Result<Vec<u8>> {
        match self {
            Kind::Cleaned => cleaned::answer(alloc, given),
            Kind::Flows => flows::answer(alloc, given),
            Kind::Graphs => graphs::answer(alloc, given),
            Kind::Moves => moves::answer(alloc, given),
        }
    }
}
