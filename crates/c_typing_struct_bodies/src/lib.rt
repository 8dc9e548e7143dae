//! The bodies of structs and enums, which stand at file scope alone (C99 6.7.2.1, 6.7.2.2).
//!
//! A walk goes down into the bodies of a specifier, and into those in the members there. It enters the constants of
//! enums among the names in scope, and the members of structs with their layout, and notes every fault in them. What
//! the declarators make of the specifier's type comes behind its bodies.
#![tactic(auto)]

mod enums;
mod members;
mod structs;
mod walk;

pub use members::{Members, is_member};
pub use walk::{bodies, declared_type};
