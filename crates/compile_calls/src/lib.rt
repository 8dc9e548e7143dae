//! The commands that compile a C text: `build`, `run`, `vm`, `print`, and `gen`, which makes the text too.
//!
//! `texts` compiles a text and `files` one that a file holds, and `images` makes the image of one alone; each command
//! then acts on what was made. `passes` has the texts of the passes.
#![tactic(auto)]

mod allocations;
pub mod build;
mod files;
pub mod generate;
mod images;
mod passes;
pub mod print;
pub mod run;
mod summary;
mod texts;
pub mod vm;

pub use passes::pass_text;
