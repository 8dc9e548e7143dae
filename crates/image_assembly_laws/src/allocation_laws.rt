//! That allocations of the functions of a program fit it, so that they can be laid out and assembled.

pub mod laws;
