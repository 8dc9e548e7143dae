//! The parts of statements are well typed.

pub mod laws;
