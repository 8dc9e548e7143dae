//! What the code of a `switch` does.

pub mod laws;
