//! How a word of 64 bits is made in a register: by as few instructions as displacements, shifts, a cut to the low half
//! and sums of halves give.
//!
//! `specs/Recipes.antt` says which word each recipe makes and which recipe a word has, and `specs/Laws.antt` what holds
//! of them.
#![tactic(auto)]

pub mod laws;
pub mod parts;
pub mod recipe;
pub mod shortest;
