//! Operators over literals become their literals.

ghost use Rattle.std.specs.Prelude.{◌≡◌, IfOk};
ghost use Rattle.c_typed_tree.specs.View.{type_view, expr_view};
ghost use Rattle.c_typed_tree.specs.Expressions.{Number, type_of};
ghost use Rattle.c_rewrite_rules.specs.Rules as rules;

use crate::literals::is_over_literals;
use crate::node::Node;
use c_typed_tree::{CType, TExpr};
use c_typing_constants::constant;
use pass_trees::Rule;
use std::alloc::{AllocError, Global};

/// Computes each operator and each conversion over integer literals that neither traps nor is undefined.
#[derive(Clone, Copy, Debug, Drop)]
pub struct FoldConst;

/// The type of an expression, which is given up.
#[tactic(auto, unfolding(c_typed_tree::specs::model::View::opens))]
fn into_type(e: TExpr) -> CType
    ensures { type_view result ≡ type_of (expr_view e) }
{
    match e {
        TExpr::Number { ty, .. } => ty,
        TExpr::Local { ty, .. } => ty,
        TExpr::Global { ty, .. } => ty,
        TExpr::Call { ty, .. } => ty,
        TExpr::Unary { ty, .. } => ty,
        TExpr::Binary { ty, .. } => ty,
        TExpr::Assign { ty, .. } => ty,
        TExpr::Conditional { ty, .. } => ty,
        TExpr::Cast { ty, .. } => ty,
        TExpr::Convert { ty, .. } => ty,
        TExpr::Index { ty, .. } => ty,
        TExpr::Field { ty, .. } => ty,
        TExpr::Arrow { ty, .. } => ty,
        TExpr::Postfix { ty, .. } => ty,
        TExpr::Comma { ty, .. } => ty,
    }
}

/// An integer.
#[tactic(auto, unfolding(c_typed_tree::specs::model::View::opens))]
pub(crate) fn number(ty: CType, value: u64) -> TExpr
    ensures { expr_view result ≡ Number (type_view ty) value }
{
    TExpr::Number { ty, value }
}

fn fold(e: TExpr) -> TExpr
    ensures { expr_view result ≡ rules.folded (expr_view e) }
{
    if !is_over_literals(&e) {
        return e;
    }
    match constant(&e) {
        None => e,
        Some(value) => number(into_type(e), value),
    }
}

impl Rule for FoldConst {
    type Node = Node;

    ghost use Rattle.c_rewrite_rules.specs.Rules.{folded};
    ghost use Rattle.c_rewrite_rules.specs.model.Folded.{folded_refines};
    ghost use Rattle.c_rewrite_rules.specs.model.Heights.{folded_low};

    ghost turned = { λ rule node. folded node };

    ghost growth = { 0 };

    fn apply(&self, _alloc: Global, node: Node) -> Result<Node, AllocError> {
        let Node(e) = node;
        Ok(Node(fold(e)))
    }

    ghost refines_node = { λ rule node. folded_refines node };

    ghost grows = { λ rule node. folded_low node };
}
