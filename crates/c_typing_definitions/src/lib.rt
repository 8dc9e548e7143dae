//! Which functions and objects a unit defines (C99 6.9).
//!
//! They are known before anything is judged: a use of what is never defined is a fault, and string literals have their
//! numbers behind those of the objects with names. Only names are looked at, and of types whether they are those of
//! functions, so no declaration has to be without fault.
#![tactic(auto)]

mod names;

pub use names::{Definitions, defines_function, defines_object, find_definitions, object_count};
