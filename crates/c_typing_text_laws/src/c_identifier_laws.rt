//! Laws of the names that a text declares.
//!
//! It has laws alone and no bodies.

pub mod laws;
