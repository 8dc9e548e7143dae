//! The laws that the blocks of selected code are lawful ones, that the code is short, and that it costs at most what is
//! said of the function.
#![tactic(auto)]

pub mod selection_costs;
pub mod selection_shapes;
