//! The values of constant expressions, read off their typed trees (C99 6.6).
#![tactic(auto)]

pub mod c_constant_rules;
mod evaluate;
mod evaluation;
mod operators;

pub use evaluate::{
    constant, is_null_constant, is_null_pointer, is_null_pointer_constant, is_null_void,
};
