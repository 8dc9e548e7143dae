//! What functions are is well typed in the unit in which they stand.

pub mod laws;
