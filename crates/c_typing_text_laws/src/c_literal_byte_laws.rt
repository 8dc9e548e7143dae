//! Laws of what string literals stand for.
//!
//! It has laws alone and no bodies.

pub mod laws;
