//! The types that declarators give, and which of them there are (C99 6.7.5). Nothing here goes down into a declarator:
//! each call makes of a type the one that a star, a length or a list of parameters makes of it, or none.

mod declared;
mod depth;

pub use declared::{DeclaredType, array_of, function_of, parameter_of, pointer_to};
pub use depth::{MOST_DEPTH, is_declarable, is_deep_at_most};
