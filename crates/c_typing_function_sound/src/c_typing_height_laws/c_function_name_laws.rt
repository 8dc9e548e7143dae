//! Laws of the names of functions that are judged.
//!
//! It has laws alone and no bodies.

pub mod laws;
