//! That the argument places which selected functions write are within their calls, and how wide these calls are, also
//! behind the passes over blocks.

pub mod laws;
