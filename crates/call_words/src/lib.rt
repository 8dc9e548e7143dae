//! The words of a call: what they ask for.
//!
//! `line` reads the words by the crate `clap`, as one command with two places and six options, `numbers` and `options`
//! read the values, and `read` says what is asked for.
#![tactic(auto)]

pub mod compile_options;
mod line;
mod numbers;
mod options;
mod read;
pub mod request;

pub use read::{WordsFault, read_words};
pub use request::{Command, Request};
