//! Statements: what each is judged to be, with its typed tree, and every fault that is in it (C99 6.8).
//!
//! One walk goes down into statements, in the order of the text. It declares locals as they come, and undoes each scope
//! where it is left.
#![tactic(auto)]

pub mod c_typing_function_bodies;
mod descent;

pub use descent::{statement, statements};
