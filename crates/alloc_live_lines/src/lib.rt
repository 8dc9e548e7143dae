//! The text of what is live at the ends of blocks, and of the lifetimes of temporaries.
//!
//! `specs/Text.antt` says what the lines are.
#![tactic(auto)]

mod lines;
mod lives;
mod text;

pub use lives::lives_text;
pub use text::{live_text, put_live};
