//! What judgements note.

pub mod laws;
