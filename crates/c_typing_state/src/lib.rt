//! What a walk over a tree notes on its way: faults, what is used, and which structs and tags there are; and the names
//! in scope, with what they mean (C99 6.2.1, 6.2.3).
//!
//! A judgement gives what it finds, if its parts are without fault, and notes its faults. It never looks back at what
//! was noted.
#![tactic(auto)]

mod env;
mod lists;
mod meanings;
mod notes;

pub use env::{Env, declare, enter, leave, meaning_of, stands_here};
pub use lists::append_part;
pub use meanings::{NameMeaning, Tag, UntaggedStruct, Use};
pub use notes::{
    Notes, add_struct, add_tag, keep_apart, note, note_fault, note_text, note_use, rejoin,
    take_address,
};
