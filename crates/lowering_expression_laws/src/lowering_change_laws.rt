//! What the code of compound assignments, and of `++` and `--`, does.

pub mod laws;
