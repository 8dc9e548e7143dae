//! Reads programs over temporaries, and placements of their temporaries, from the texts in which rows give them.
//!
//! The form of the texts is described at the head of each file of rows (`temp_rows`, `frame_rows`).
#![tactic(auto)]

mod insns;
pub mod reader;
mod words;

pub use insns::behind;
