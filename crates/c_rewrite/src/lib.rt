//! Typed units rewritten by the rules: each outermost expression becomes what the three make of it, one after the other.
//!
//! `specs/Rewritten.antt` has what a rewritten unit is. Since each rule refines every node, and so what the walk of
//! `pass_trees` makes of an expression refines the expression, a rewritten unit refines the unit. The lemmas of these laws
//! stand in `specs/model/`.
#![tactic(auto)]

pub mod examples;
mod rewrite;
mod rewrite_statements;
pub mod rewrite_units;

pub use rewrite_units::rewrite_unit;
