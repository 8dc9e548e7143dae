//! The faults of typing: their kinds, and which of several comes first.
//!
//! A checker notes each fault where it finds it, and answers the first one of all: [`least`].
#![tactic(auto)]

mod faults;
pub mod laws;
mod order;

pub use faults::{Fault, Kind};
pub use order::least;
