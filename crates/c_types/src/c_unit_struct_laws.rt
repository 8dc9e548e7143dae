//! The structs of a unit are lawful.

pub mod laws;
