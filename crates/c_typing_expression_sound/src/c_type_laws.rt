//! What the rules of typing give is well typed.

pub mod laws;
