//! What whole expressions are is well typed.

pub mod laws;
