//! The scan of one block that gives temporaries registers, with second chances, and the maps of its top and bottom.
#![tactic(auto)]

pub mod bins;
pub mod block;
pub mod blocks;
mod choice;
pub mod fixed_uses;
mod fixing;
mod handover;
pub mod held;
mod moving;
mod register_uses;
pub mod registers;
mod saving;
mod spans;
mod standing;
mod visit;
mod wanted;
