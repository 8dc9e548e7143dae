//! That the selected code of a function is short, and costs at most what is said of the function.

pub mod laws;
