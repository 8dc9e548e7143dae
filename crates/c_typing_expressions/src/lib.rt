//! Expressions and type names: what each is judged to be, with the typed tree of an expression, and every fault that is
//! in it (C99 6.5, 6.7.6).
//!
//! One walk goes down into expressions, the type names in them, the lengths in these, and so on. It is given the names
//! in scope, and notes what it finds.
#![tactic(auto)]

mod expressions;

pub use expressions::{derive, judge, judge_type_name, judges};
