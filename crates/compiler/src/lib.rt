//! From the bytes of a C text to the words of an image.
//!
//! `compile` makes one pass after the other. What it made, pass by pass, is a `Built`; the image of it does what the C
//! text means. `compile_image` makes the image alone, and keeps nothing else.
#![tactic(auto)]

mod assembly;
mod built;
mod code;
pub mod compile;
mod laws;

pub use built::Built;
pub use call_words::compile_options::{Allocator, Options};
pub use compiler_front_end::CompileFault;
