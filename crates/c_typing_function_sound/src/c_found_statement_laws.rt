//! Laws of functions that are judged: where nothing was noted, each is found.
//!
//! It has laws alone and no bodies.

pub mod laws;
