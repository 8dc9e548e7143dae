//! The objects of static storage at the start of a program: they lie in the data of its image.

pub mod laws;
