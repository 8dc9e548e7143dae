//! Programs over temporaries whose functions have the same walks have the same endings.

pub mod laws;
