//! Blocks with the contents of others give no other arguments.

pub mod laws;
