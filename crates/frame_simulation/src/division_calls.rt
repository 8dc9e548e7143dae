//! Divisions: the machine calls a routine, which does with two words what the division does with them.

pub mod laws;
