//! Laws of what is judged: where nothing was noted, everything is found.
//!
//! It has laws alone and no bodies.

pub mod laws;
