//! The three rules that rewrite expressions of typed units, and expressions as the trees whose nodes they turn.
//!
//! `specs/Rules.antt` has the table of each rule, as a function on plain expressions, and `specs/Nodes.antt` the trees.
//! A rule's law is that what it makes of a node refines the node; so what the walk of `pass_trees` makes of an expression
//! refines the expression. The lemmas of these laws stand in `specs/model/`.
#![tactic(auto)]

pub mod dead_arm;
pub mod fold;
mod idle;
mod literals;
pub mod node;
mod operands;
pub mod simplify;

pub use dead_arm::DeadArm;
pub use fold::FoldConst;
pub use node::Node;
pub use operands::leaf;
pub use simplify::Simplify;
