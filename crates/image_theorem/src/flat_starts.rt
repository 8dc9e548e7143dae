//! The start of a run: the machine comes from the start of an image to the first instruction of `main`.

pub mod laws;
