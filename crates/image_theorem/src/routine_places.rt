//! The division routines in the text of an assembly: no branch in them is far, and their code stands.

pub mod laws;
