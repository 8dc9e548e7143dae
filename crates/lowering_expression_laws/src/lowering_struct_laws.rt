//! What the code of arrays that become pointers, and of assignments of structs, does.

pub mod laws;
