//! The items of a function with its allocation, and where they stand in the image of an assembly.

pub mod laws;
