//! What the code of blocks, of declarations, and of a `for` that declares does.

pub mod laws;
