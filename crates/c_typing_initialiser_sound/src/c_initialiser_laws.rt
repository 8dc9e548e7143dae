//! The cells that whole initialisers give are lawful.

pub mod laws;
