//! That the transfers of the edges between blocks fit the frame of their function.

pub mod laws;
