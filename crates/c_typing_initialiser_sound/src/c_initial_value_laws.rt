//! What initial values put into an object is lawful.

pub mod laws;
