//! The run of the code of a unit ends as the run of the unit.

pub mod laws;
