//! What the code of places and of accesses to them does, where the code of their parts does what they do.

pub mod laws;
