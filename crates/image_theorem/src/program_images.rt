//! The images of programs: where an assembly has the items of a program with allocations, its image behaves as the
//! program.

pub mod laws;
