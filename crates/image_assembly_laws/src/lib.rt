//! That the assembly of a program's functions, as they are laid out, is whole and is exactly that of the program.
#![tactic(auto)]

pub mod allocation_laws;
pub mod laws;

pub use image_assembly as assembly;
