//! What the code of a function does from its entry to its return, where that of its body does what the body does.

pub mod laws;
