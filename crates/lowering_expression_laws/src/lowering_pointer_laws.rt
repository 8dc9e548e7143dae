//! What the code of pointers that are moved by elements does.

pub mod laws;
