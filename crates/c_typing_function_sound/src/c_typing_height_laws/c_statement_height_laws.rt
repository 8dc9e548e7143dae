//! Laws of the height of functions that are judged.
//!
//! It has laws alone and no bodies.

pub mod laws;
