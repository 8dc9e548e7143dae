//! Laws of the types of functions that are judged.
//!
//! It has laws alone and no bodies.

pub mod laws;
