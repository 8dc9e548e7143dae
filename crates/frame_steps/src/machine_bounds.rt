//! The bounds of what a machine holds: a run from registers with words and from memory and input with bytes keeps both.

pub mod laws;
