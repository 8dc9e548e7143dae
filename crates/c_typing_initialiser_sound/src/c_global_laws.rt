//! The objects of static storage of a unit lie as a lawful unit asks.
//!
//! It has laws alone and no bodies.

pub mod laws;
