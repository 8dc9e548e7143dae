//! How many structs, functions, objects, statements, expressions and locals a typed unit has, and whether numbers of 32
//! bits name them all.
#![tactic(auto)]

pub mod node_counts;
pub mod unit_counts;
