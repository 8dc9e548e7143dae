//! The names that are declared at file scope: objects, functions and typedef names (C99 6.2.7, 6.7, 6.9).
//!
//! A declaration comes with its type, or as one that has a fault. It is entered among the names in scope, with the next
//! number of what the unit defines; a name that was declared before has to have the same kind and type.
#![tactic(auto)]

mod names;

pub use names::{NameDeclaration, UnitNames, declare_in_unit};
