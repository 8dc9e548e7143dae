//! What functions and initialisers note.

pub mod laws;
