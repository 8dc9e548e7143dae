//! That the text which the passes make of a unit within the most weight fits an image.

pub mod laws;
