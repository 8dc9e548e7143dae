//! Laws of the bytes in the initialisers of a text.
//!
//! It has laws alone and no bodies.

pub mod laws;
