//! One assembly from the functions of a program: each is laid out with labels of its own, and they are joined with the
//! piece that begins a run, the division routines and the data.
#![tactic(auto)]

mod assemblies;
mod globals;
mod layouts;
mod numbers;

pub use assemblies::{gather, start_piece, with_data};
pub use layouts::{lay_out, lay_out_one};
pub use numbers::read_numbers;
