//! That the argument places which selected functions name can be told from others, also behind the passes over blocks.

pub mod laws;
