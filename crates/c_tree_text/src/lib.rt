//! The text of the syntax tree of a C unit.
#![tactic(auto)]

mod print;
mod print_units;
mod words;

pub use print_units::tree_text;
