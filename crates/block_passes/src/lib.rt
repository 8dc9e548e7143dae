//! The passes over the blocks of a program, between selection and allocation.
//!
//! Each pass keeps what `Keeps` says (`specs/Keeps.antt`), and gives what it is for (`specs/Clauses.antt`); `Keeps` is
//! transitive, so passes one after the other keep it too. `clean_and_split` is all of them in their order: it gives the
//! program whose functions have no block to which no path leads, and no edge that has to be split. Copies between
//! temporaries and dead instructions go between the two (`block_coalescing`).
#![tactic(auto)]

pub mod laws;
mod passes;
mod programs;

pub use programs::clean_and_split;
