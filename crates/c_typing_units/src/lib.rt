//! Whole units: the built-in functions, the declarations in order, what is used and never defined, and a
//! missing `main` (C99 6.7, 6.9).
#![tactic(auto)]

pub mod c_builtins;
pub mod c_typing_externals;
mod undefined;
mod units;

pub use units::{UnitState, judge};
