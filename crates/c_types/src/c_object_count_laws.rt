//! Laws of the number of objects that a unit has.
//!
//! It has laws alone and no bodies.

pub mod laws;
