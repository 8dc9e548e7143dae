//! What the code of loops does, at each level, where the code of their parts does what they do.

pub mod laws;
