//! Initialisers of objects of static storage (C99 6.7.8): the cells that each gives, and every fault that is in it.
//!
//! An initialiser is judged at the type of what it initialises; its expressions are judged by `c_typing_expressions`. What
//! fits nothing is judged without a type.
#![tactic(auto)]

mod initialisers;
mod lists;
mod unfitting;
mod values;

pub use initialisers::{length_given, object_cells};
pub use lists::InitialiserItems;
pub use unfitting::{judge_init, unfit};
