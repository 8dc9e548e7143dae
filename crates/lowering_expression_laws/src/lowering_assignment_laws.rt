//! What the code of locals and of assignments does, where the code of their parts does what they do.

pub mod laws;
