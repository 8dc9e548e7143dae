//! What judgements find is well typed.

pub mod laws;
