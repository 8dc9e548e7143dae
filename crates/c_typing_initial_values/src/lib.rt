//! What initialisers of objects of static storage are made of (C99 6.6, 6.7.8): the values that they may have, the
//! cells that these fill, and the parts of an object that the items of a list initialise.
#![tactic(auto)]

pub mod cells;
pub mod parts;
pub mod values;
