//! What is known of a program behind the passes over its blocks: it does as the program over virtual registers does,
//! and by the weights of the unit's functions its functions are small.
#![tactic(auto)]

pub mod laws;
pub mod near_arguments;
pub mod selected_widths;
