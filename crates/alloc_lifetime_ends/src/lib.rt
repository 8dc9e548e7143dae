//! The last point of each temporary's lifetime, from what is live at the bottoms of blocks.
//!
//! `specs/Wanted.antt` has tests for where a temporary is live and present, by these sets; a law says that they are
//! exact. `last_points` gives the last point at which each one is present (`specs/Ends.antt`).
#![tactic(auto)]

mod insns;
mod last;
pub mod laws;

pub use last::last_points;
