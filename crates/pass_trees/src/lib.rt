//! What trees and the rules that rewrite them are, whatever the trees are of, and the walk that applies a rule
//! everywhere, from the leaves up.
//!
//! A tree has a relation, `refines`, which is an order and goes through: what refines a child, put in its place, refines
//! the whole (`specs/Trees.antt`). A rule says what each node is turned into, which refines the node. So what
//! `bottom_up` makes refines the tree, whatever the rule is: that is proved once, here.
#![tactic(auto)]

pub mod rule;
pub mod tree;
pub mod walk;

pub use rule::Rule;
pub use tree::Tree;
pub use walk::bottom_up;
