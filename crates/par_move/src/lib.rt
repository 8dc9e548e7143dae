//! Parallel moves: register moves that are to happen at once, as moves one after the other.
//!
//! `sequence` breaks each cycle by a scratch register. `specs/Moves.antt` says what moves do that are made one after
//! the other, what it is that they do others at once, and how many they are.
#![tactic(auto)]

pub mod laws;
mod moves;

pub use moves::{Move, sequence};
