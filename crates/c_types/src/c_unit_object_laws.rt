//! What the names of objects and functions of file scope mean is there, in a unit in which nothing was noted.
//!
//! It has laws alone and no bodies.

pub mod laws;
