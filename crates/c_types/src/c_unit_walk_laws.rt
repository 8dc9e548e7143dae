//! The walk of a unit in which nothing was noted, with what each declaration notes.
//!
//! It has laws alone and no bodies.

pub mod laws;
