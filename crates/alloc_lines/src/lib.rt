//! The text of allocations, and of their journals.
//!
//! `specs/Registers.antt` puts the registers that an allocation states into an instruction, and `specs/Text.antt` says
//! what the lines are.
#![tactic(auto)]

mod lines;
mod registers;
mod text;

pub use text::{alloc_text, journal_text, put_allocation};
