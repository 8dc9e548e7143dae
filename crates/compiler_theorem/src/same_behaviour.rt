//! That an image which is made of a unit behaves as the unit does.

pub mod laws;
