//! What the names of file scope mean in a unit in which nothing was noted.
//!
//! It has laws alone and no bodies.

pub mod laws;
