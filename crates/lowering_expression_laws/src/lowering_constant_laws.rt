//! What the code of null constants that become pointers, and of casts to void, does.

pub mod laws;
