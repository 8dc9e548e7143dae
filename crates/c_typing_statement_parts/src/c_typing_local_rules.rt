//! Locals and parameters (C99 6.7, 6.9.1): their types, the numbers and names that they get, what initialises them, and
//! which of them are objects of memory; with every fault that they have besides those of their parts.
//!
//! Nothing here goes down into a tree: each function is given what its parts were judged to be.

pub mod locals;
mod objects;

pub use locals::NewLocal;
