//! The code of typed statements over virtual registers.
//!
//! What the code of each statement is stands in `lowering_code`.
#![tactic(auto)]

pub mod labels;
pub mod values;
pub mod walk;

pub use walk::stmt;
