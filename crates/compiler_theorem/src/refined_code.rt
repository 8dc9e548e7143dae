//! That the code of a unit which refines another one does what the other one does.

pub mod laws;
