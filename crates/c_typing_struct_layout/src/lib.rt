//! The layout of structs: the places of members, the size and the alignment (C99 6.7.2.1).
#![tactic(auto)]

pub mod c_layout_laws;
mod fields;
pub mod laws;
mod places;

pub use fields::{Field, lay_out};
