//! What is done with images: they are written, run, and migrated from files.
//!
//! `write` and `run` take an image that is there, `exec` and `migrate` one that a file holds.
#![tactic(auto)]

pub mod exec;
mod files;
pub mod laws;
pub mod migrate;
mod run;
mod write;

pub use run::{outcome_of, run_image};
pub use write::write_image;
