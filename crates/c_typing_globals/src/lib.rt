//! The objects of static storage of a unit, laid out in the order of their numbers (C99 6.2.4, 6.4.5).
#![tactic(auto)]

mod globals;
mod objects;

pub use globals::{GlobalsSoFar, lay_out_globals};
pub use objects::{UnitObject, set_cells};
