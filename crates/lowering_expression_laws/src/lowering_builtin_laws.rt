//! What the code of calls of the built-in functions does.

pub mod laws;
