//! Objects of locals begin and end in the C meaning, where the code has one object for as long as its call.

pub mod laws;
