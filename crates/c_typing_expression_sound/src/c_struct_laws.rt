//! The structs that bodies declare are lawful.

pub mod laws;
