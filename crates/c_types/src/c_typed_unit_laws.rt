//! The typed unit that is made of a unit in which nothing was noted is well typed.
//!
//! It has laws alone and no bodies.

pub mod laws;
