//! The edges of a function: where none has to be split, the transfers of each stand where the run comes by.

pub mod laws;
