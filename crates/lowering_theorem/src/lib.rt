//! The program of a unit runs as the unit does.
#![tactic(auto)]

pub mod laws;
pub mod lowering_function_laws;
pub mod lowering_unit_theorem;
