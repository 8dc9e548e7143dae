//! The law from a program over temporaries to the machine: with faithful allocations, whose items stand in an image,
//! the image behaves as the program.

pub mod laws;
