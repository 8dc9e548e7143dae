//! How a call of the compiler ends, and what its commands share: reading a file, and putting bytes.
#![tactic(auto)]

pub mod files;
pub mod outcome;
pub mod output;
