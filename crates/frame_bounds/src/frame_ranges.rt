//! That the fields of a function's items are in their ranges.

pub mod laws;
