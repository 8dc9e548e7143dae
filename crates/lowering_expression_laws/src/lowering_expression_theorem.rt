//! That the code of every expression of a typed unit does what the expression means, where the code of functions does
//! so one level down.

pub mod laws;
