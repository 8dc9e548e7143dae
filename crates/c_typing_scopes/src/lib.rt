//! Names that shadow one another, of which the newest is found at once (C99 6.2.1).
//!
//! A [`NameTable`] keeps names with what they mean, in the order in which they were declared. A scope is left by
//! dropping all names behind the number that there was when it was entered.
#![tactic(auto)]

mod table;

pub use table::NameTable;
