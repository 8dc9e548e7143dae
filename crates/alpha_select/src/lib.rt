//! Selection: programs over virtual registers become programs over temporaries.
//!
//! `select` gives the selected program, and `select_in_turn` gives it of a program that is let go function by function.
//! `specs/Selection.antt` says of which functions it consists; what each instruction becomes stands in `selection_code`,
//! and that its runs end alike in `selection_laws`.
#![tactic(auto)]

mod functions;
mod in_turn;
mod programs;

pub use in_turn::select_in_turn;
pub use programs::select;
