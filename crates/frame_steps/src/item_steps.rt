//! The items of an assembly as they stand in its image, and what the machine does at each of them.
//!
//! `specs/item_steps/Standing.antt` says that items stand in a text from one word to another, near and far branches alike, and
//! `specs/item_steps/Steps.antt` what steps the machine takes there.

pub mod laws;
