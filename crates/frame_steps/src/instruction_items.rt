//! The items of each instruction with stated registers, and what the machine does at them.
//!
//! `specs/instruction_items/Items.antt` has the items of every instruction; `specs/instruction_items/Laws.antt` says that the machine does at those of an
//! instruction that is no call, division or return what the instruction does over registers, slots and objects.

pub mod laws;
