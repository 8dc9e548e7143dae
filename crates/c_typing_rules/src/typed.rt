//! Expressions that are judged.

ghost use Rattle.std.specs.Prelude.{◌≡◌};
ghost use Rattle.c_typing_rules.specs.Values as spec;

use bk_containers::Box;
use c_typed_tree::{CType, TExpr};

/// Which place an expression is, if it is one (C99 6.3.2.1).
#[derive(Clone, Copy, Debug, PartialEq, Eq)]
pub enum LvalueKind {
    /// A value, and no place.
    Nowhere,
    /// The local with this number, or a member of it.
    Local(u32),
    /// The global with this number.
    Global(u32),
    /// What a pointer points to, or a part of an object.
    Elsewhere,
}

/// An expression without fault, at its first token, with its type.
#[derive(Drop)]
pub struct TypedExpression {
    pub at: u32,
    pub tree: Box<TExpr>,
    pub ty: CType,
    pub place: LvalueKind,
}

/// A value.
pub fn value(at: u32, ty: CType, tree: Box<TExpr>) -> TypedExpression
    ensures { result ≡ spec.rvalue at ty tree }
{
    TypedExpression {
        at,
        tree,
        ty,
        place: LvalueKind::Nowhere,
    }
}
