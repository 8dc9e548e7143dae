//! What holds of the body of every function that is judged.

pub mod laws;
