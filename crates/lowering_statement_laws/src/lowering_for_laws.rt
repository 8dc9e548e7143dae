//! What the code of `for` does, at each level, where the code of its parts does what they do.

pub mod laws;
