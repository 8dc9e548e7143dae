//! What `build`, `run` and `vm` answer for a text is what the text means.
#![tactic(auto)]

pub mod laws;
