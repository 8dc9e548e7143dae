//! The memory of objects over flat bytes.
//!
//! `specs/Relation.antt` says when bytes by their addresses stand for a memory of objects, and the laws that what is
//! read, written, begins and ends there corresponds. `specs/Machine.antt` sees the data and the stack of the machine as
//! such bytes.
#![tactic(auto)]

pub mod flat_frames;
pub mod flat_globals;
pub mod flat_operations;
pub mod global_data;
pub mod laws;
