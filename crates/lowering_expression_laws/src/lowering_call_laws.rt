//! What the code of calls of functions does, where that of their arguments and of the functions does what they do.

pub mod laws;
