//! What one declaration at file scope gives: the type of an object or a function, its name and its initialiser, and
//! every fault in them but for those of bodies (C99 6.7, 6.9).
#![tactic(auto)]

mod functions;
mod objects;
mod walk;

pub use functions::{
    declare_function, defined_type, function_type, refuse_optional, refuse_value, see_main,
};
pub use objects::{declare_array, declare_faulty, declare_value, judge_parts};
pub use walk::{UnitFunction, UnitSoFar, declare, keep_function};
