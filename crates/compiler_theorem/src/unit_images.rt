//! An image that is made of a unit, by way of its program over virtual registers and of the one over temporaries, is
//! the same as the unit.

pub mod laws;
