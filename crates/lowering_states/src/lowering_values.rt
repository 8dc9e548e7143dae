//! What the instructions of the code of units do with the values of registers, beside what the operators of C do.

pub mod laws;
