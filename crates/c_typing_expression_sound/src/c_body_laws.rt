//! What the bodies of structs and enums leave.

pub mod laws;
