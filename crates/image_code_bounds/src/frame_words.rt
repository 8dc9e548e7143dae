//! How many words the items of a function have at most, whatever branches become far.

pub mod laws;
