//! Rules.

ghost use Rattle.std.specs.Prelude.{◌≡◌, ℕ, ◌≤◌, ◌+◌, IfOk};

use crate::Tree;
use std::alloc::{AllocError, Global};

/// What each node of a tree is turned into.
pub trait Rule {
    /// The trees that it is about.
    type Node: Tree;

    ghost turned: { Self → Self.Node → Self.Node };

    // by how much a node may become higher
    ghost growth: { ℕ };

    /// Turns a node. It fails for want of memory alone, and the node is given up then.
    fn apply(&self, alloc: Global, node: Self::Node) -> Result<Self::Node, AllocError>
        ensures { IfOk result (λ made. made ≡ turned self.now node) };

    ghost refines_node: { (rule : Self) (node : Self.Node) → Self.Node.refines (turned rule node) node };

    ghost grows: { (rule : Self) (node : Self.Node) → Self.Node.height (turned rule node) ≤ Self.Node.height node + growth };
}
