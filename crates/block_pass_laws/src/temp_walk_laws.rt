//! Programs over temporaries whose functions have the same walks run alike.

pub mod laws;
