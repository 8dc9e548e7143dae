//! Branches that test a value in place of what a comparison of it with zero found.
//!
//! Within a block it is known of a register that it is zero behind the `ldc` that made it so, and of another one that
//! it says whether a value is neither zero nor null behind the `sne` that compared them. A branch there may test the
//! value.
#![tactic(auto)]

pub mod known;
pub mod laws;

pub use known::RegisterFact;
