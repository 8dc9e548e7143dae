//! Laws of units that are judged: where nothing was noted, every declaration is found.
//!
//! It has laws alone and no bodies.

pub mod laws;
