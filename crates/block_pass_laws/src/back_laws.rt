//! That the passes over blocks keep what is owed of functions over temporaries.

pub mod laws;
