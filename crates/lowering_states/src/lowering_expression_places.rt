//! Behind the code of each form of expression stands the code that comes behind it.

pub mod laws;
