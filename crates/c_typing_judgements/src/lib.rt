//! What each form of expression and of type name is judged to be, by what its parts were judged to be (C99 6.5, 6.7.6).
//!
//! A form is judged only where its parts and the declarations of its names are without fault: each call here is given
//! its parts as they were found, or not, and notes the fault that the form itself has. Nothing here goes down into an
//! expression.
#![tactic(auto)]

pub mod c_typing_operators;
pub mod calls;
pub mod leaves;
pub mod members;
pub mod names;
pub mod operators;
pub mod texts;
pub mod types;
