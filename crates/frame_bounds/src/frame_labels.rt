//! Which labels the items of a function name, and which ones they use.

pub mod laws;
