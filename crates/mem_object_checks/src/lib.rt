//! Whether objects of static storage are those of a program.
#![tactic(auto)]

mod objects;

pub use objects::are_lawful_objects;
