//! Lists that are linked both ways by numbers, in one arena.
//!
//! Each item has an id, which stays with it for as long as it is in the list, and which is never given again. Room
//! is taken ahead, by `reserve`; no other call takes memory. Contracts see a list as its pairs of id and item in
//! order, beside the room that is left and the number of ids given (`specs/Listing.antt`).
#![tactic(auto)]

pub mod iter;
mod link;
pub mod list;
mod node;

pub use iter::Iter;
pub use list::IndexList;
