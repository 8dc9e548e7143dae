//! The grammar of C units: as a relation between token lists and trees, as a function that looks one
//! token ahead, and the laws that hold the two together.
#![tactic(auto)]

mod classes;
pub mod laws;
pub mod levels;
mod shapes;
mod word_set;

pub use classes::{
    Head, Infix, Prefix, Specifier, StorageClass, TypeWord, head_of, infix_of, prefix_of,
    specifier_of, storage_class_of,
};
pub use shapes::{Declarator, DeclaredName, NameRequirement, Shape, SpecifierStart};
pub use word_set::{BaseWord, Sign, WordSet};
