//! What the code that writes a value to a place of memory does.

pub mod laws;
