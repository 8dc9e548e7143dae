//! The walk from the leaves up.

ghost use Rattle.std.specs.Prelude.{◌≡◌, ◌≤◌, ◌*◌, ◌+◌, IfOk};
ghost use Rattle.pass_trees.specs.Up.{up};

use crate::{Rule, Tree};
use std::alloc::{AllocError, Global};

/// Applies a rule to each node of a tree, after its children. It fails for want of memory alone, and the tree is given
/// up then. Each node is turned once and none is copied; the calls of this function nest no deeper than the tree is
/// high.
pub fn bottom_up<R: Rule>(alloc: Global, rule: &R, node: R::Node) -> Result<R::Node, AllocError>
    ensures is { IfOk result (λ made. made ≡ up R.Node.children R.Node.with_child R.Node.height (R.turned rule.now) node) }
    ensures refines { IfOk result (λ made. R.Node.refines made node) }
    ensures height { IfOk result (λ made. R.Node.height made ≤ (1 + R.growth) * R.Node.height node) }
{
    let mut node = node;
    for k in 0..node.arity() {
        let child = node.take(k);
        let made = bottom_up(alloc, rule, child)?;
        node.put(k, made);
    }
    rule.apply(alloc, node)
}
