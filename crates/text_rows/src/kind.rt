//! The kinds of rows, each with its file.

use crate::{places, tokens, trees};
use anyhow::Result;
use row_sheets::Table;
use std::alloc::Global;

/// What the rows of a file are given to.
#[derive(Clone, Copy, Debug)]
pub enum Kind {
    Tokens,
    TokenKinds,
    MarkPairs,
    Trees,
    Completions,
    Places,
    Nesting,
    Depth,
}

/// The kinds in the order in which they are checked.
pub const KINDS: [Kind; 8] = [
    Kind::Tokens,
    Kind::TokenKinds,
    Kind::MarkPairs,
    Kind::Trees,
    Kind::Completions,
    Kind::Places,
    Kind::Nesting,
    Kind::Depth,
];

impl Table for Kind {
    fn file(&self) -> &'static str {
        match self {
            Kind::Tokens => "tokens.rows",
            Kind::TokenKinds => "token_kinds.rows",
            Kind::MarkPairs => "mark_pairs.rows",
            Kind::Trees => "trees.rows",
            Kind::Completions => "completions.rows",
            Kind::Places => "places.rows",
            Kind::Nesting => "nesting.rows",
            Kind::Depth => "depth.rows",
        }
    }

    fn answer(&mut self, alloc: Global, given: &str) -> Result<Vec<u8>> {
        match self {
            Kind::Tokens => tokens::list(alloc, given),
            Kind::TokenKinds | Kind::MarkPairs => tokens::first(alloc, given),
            Kind::Trees => trees::tree(alloc, given),
            Kind::Completions => trees::completion(alloc, given),
            Kind::Places => places::answer(alloc, given),
            Kind::Nesting => trees::nesting(alloc, given),
            Kind::Depth => trees::is_read(alloc, given),
        }
    }
}
