//! Where the temporaries of a function are wanted: the parts of each lifetime between its holes, and its references.
//!
//! `lifetimes` goes over the function once, in order. A range of points at which a temporary is present is put behind
//! its parts at each read, at each write and at the bottom of a block where it is live, and is joined to the last part
//! where that reaches it (`specs/model/Spans.antt`).
#![tactic(auto)]

mod blocks;
mod insns;
mod lists;
mod lives;

pub use lives::lifetimes;
