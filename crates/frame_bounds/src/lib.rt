//! Bounds of the frames of functions, and where the items of a function stand among others.
#![tactic(auto)]

pub mod frame_labels;
pub mod frame_ranges;
pub mod laws;
