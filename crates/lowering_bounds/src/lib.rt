//! The code of a function of a lawful unit names what is there, has few registers and costs little, by its weight.
#![tactic(auto)]

pub mod laws;
