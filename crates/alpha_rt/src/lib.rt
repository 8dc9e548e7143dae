//! The division routines of the Alpha machine, which has no division: what they answer, their
//! instructions, and that a call of one does what it answers.
#![tactic(auto)]

pub mod items;
pub mod laws;
