//! Laws of the height of expressions that are judged.
//!
//! It has laws alone and no bodies.

pub mod laws;
