//! The frame of a function fits the room that its source has.

pub mod laws;
