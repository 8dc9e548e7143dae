//! The laws that passes over blocks keep what is owed of programs over temporaries, what these do, and what selection
//! keeps.
#![tactic(auto)]

pub mod argument_laws;
pub mod back_laws;
pub mod ending_laws;
pub mod temp_walk_laws;
