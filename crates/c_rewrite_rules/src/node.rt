//! Expressions as trees.

use crate::operands::{count, exchange, leaf};
use c_typed_tree::TExpr;
use pass_trees::Tree;
use std::marker::Model;
use std::mem::replace;

/// An expression, as a tree whose children are its operands. Contracts see its plain data.
#[derive(Drop)]
pub struct Node(pub TExpr);

impl Model for Node {
    ghost use Rattle.c_typed_tree.specs.Expressions.{Expr};
    ghost use Rattle.c_typed_tree.specs.View.{expr_view};
    ghost use Rattle.c_rewrite_rules.specs.model.Codes.{expr_code};

    ghost Value = { Expr };

    ghost coded = { expr_code };

    ghost view = { λ n. expr_view n.0 };
}

impl Tree for Node {
    ghost use Rattle.std.specs.Prelude.{◌≡◌, ◌<◌, length, slice_get, Some};
    ghost use Rattle.c_typed_tree.specs.c_typed_height.Heights.{expr_height};
    ghost use Rattle.c_semantics.specs.Refines.{ExprRefines};
    ghost use Rattle.c_rewrite_rules.specs.Nodes as nodes;
    ghost use Rattle.c_rewrite_rules.specs.model.NodeLaws.{node_laws};

    ghost children = { nodes.children_of };

    ghost with_child = { nodes.with_child };

    ghost leaf = { nodes.placeholder };

    ghost height = { expr_height };

    ghost refines = { ExprRefines };

    fn arity(&self) -> u32 {
        count(&self.0)
    }

    fn take(&mut self, k: u32) -> Node {
        let whole = replace(&mut self.0, leaf());
        let (changed, child) = exchange(whole, k, leaf());
        self.0 = changed;
        Node(child)
    }

    fn put(&mut self, k: u32, child: Node) {
        let Node(child) = child;
        let whole = replace(&mut self.0, leaf());
        let (changed, _old) = exchange(whole, k, child);
        self.0 = changed;
    }

    ghost lawful = { node_laws };
}
