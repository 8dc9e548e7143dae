//! Straight code over temporaries for what instructions over virtual registers do, the copy of an object among them.
#![tactic(auto)]

pub mod alpha_copies;
pub mod alpha_forms;
