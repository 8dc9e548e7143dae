//! The parts of statements that are no statements: what each is judged to be, with its typed tree, and every fault that
//! is in it (C99 6.7, 6.8). They are expressions, locals with their initialisers, and labels.
#![tactic(auto)]

pub mod c_typing_local_rules;
mod parts;

pub use parts::{
    condition_of, first_of, label_of, local_of, operand_of, optional_condition, optional_value,
    return_statement, type_of, value_of,
};
