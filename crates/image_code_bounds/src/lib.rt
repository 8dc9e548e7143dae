//! The laws that frames fit the rooms of the unit, and how many words the text of an assembly has at most by the weight
//! of its unit.
#![tactic(auto)]

pub mod frame_rooms;
pub mod frame_words;
pub mod program_rooms;
pub mod program_words;
pub mod unit_words;
