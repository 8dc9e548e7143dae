//! The law of the height of the functions of units that are judged.
//!
//! It has laws alone and no bodies.

pub mod laws;
