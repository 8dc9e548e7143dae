//! Boxes, lists and names that contracts see as the value, the elements and the bytes that they hold.
//!
//! So two trees are equal where they hold the same, whatever room their lists have.
#![tactic(auto)]

mod boxed;
mod name;
mod seq;

pub use boxed::Box;
pub use name::Name;
pub use seq::Seq;
