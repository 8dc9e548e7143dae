//! The shape of a function's frame, and that its allocation fits it.

pub mod laws;
