//! Typed expressions (C99 6.5).

ghost use Rattle.std.specs.Prelude.{◌≡◌};
ghost use Rattle.c_typed_tree.specs.Expressions.{type_of};
ghost use Rattle.c_typed_tree.specs.View.{type_view, expr_view};

use crate::CType;
use bk_containers::{Box, Seq};
use c_tree::{AssignOp, BinaryOp, StepOp, UnaryOp};

/// The functions that every unit has without a definition.
#[derive(Clone, Copy, Debug, PartialEq, Eq)]
pub enum Builtin {
    Putchar,
    Getchar,
    Abort,
    Exit,
}

/// What a call calls.
#[derive(Clone, Copy, Debug, PartialEq, Eq)]
pub enum Callee {
    /// The function of the unit with this number.
    Function(u32),
    Builtin(Builtin),
}

/// An expression. `ty` is its type; of a place it is the type of the object there.
///
/// Each conversion that changes a type is a node of its own: a `Cast` where the text has one, else a `Convert`.
/// Enumeration constants and `sizeof` are numbers, and a text is the global that holds it.
#[derive(Drop)]
pub enum TExpr {
    /// An integer, as a word that its type holds.
    Number {
        ty: CType,
        value: u64,
    },
    /// The local or parameter with this number in the function.
    Local {
        ty: CType,
        number: u32,
    },
    /// The global with this number in the unit.
    Global {
        ty: CType,
        number: u32,
    },
    /// A call. `ty` is the type of the result.
    Call {
        ty: CType,
        callee: Callee,
        arguments: Seq<TExpr>,
    },
    Unary {
        ty: CType,
        op: UnaryOp,
        operand: Box<TExpr>,
    },
    Binary {
        ty: CType,
        op: BinaryOp,
        left: Box<TExpr>,
        right: Box<TExpr>,
    },
    Assign {
        ty: CType,
        op: AssignOp,
        left: Box<TExpr>,
        right: Box<TExpr>,
    },
    Conditional {
        ty: CType,
        condition: Box<TExpr>,
        holds: Box<TExpr>,
        fails: Box<TExpr>,
    },
    Cast {
        ty: CType,
        operand: Box<TExpr>,
    },
    /// A conversion that the text does not spell (C99 6.3).
    Convert {
        ty: CType,
        operand: Box<TExpr>,
    },
    Index {
        ty: CType,
        left: Box<TExpr>,
        right: Box<TExpr>,
    },
    /// A member, by its number in the struct of the operand.
    Field {
        ty: CType,
        operand: Box<TExpr>,
        member: u32,
    },
    /// A member, by its number in the struct that the operand points to.
    Arrow {
        ty: CType,
        operand: Box<TExpr>,
        member: u32,
    },
    Postfix {
        ty: CType,
        op: StepOp,
        operand: Box<TExpr>,
    },
    /// The comma operator with all its operands, two or more.
    Comma {
        ty: CType,
        operands: Seq<TExpr>,
    },
}

impl TExpr {
    /// The type of the expression.
    #[tactic(auto, unfolding(crate::specs::model::View::opens))]
    pub fn ty(&self) -> &CType
        ensures { type_view result.now ≡ type_of (expr_view self.now) }
    {
        match self {
            TExpr::Number { ty, .. } => ty,
            TExpr::Local { ty, .. } => ty,
            TExpr::Global { ty, .. } => ty,
            TExpr::Call { ty, .. } => ty,
            TExpr::Unary { ty, .. } => ty,
            TExpr::Binary { ty, .. } => ty,
            TExpr::Assign { ty, .. } => ty,
            TExpr::Conditional { ty, .. } => ty,
            TExpr::Cast { ty, .. } => ty,
            TExpr::Convert { ty, .. } => ty,
            TExpr::Index { ty, .. } => ty,
            TExpr::Field { ty, .. } => ty,
            TExpr::Arrow { ty, .. } => ty,
            TExpr::Postfix { ty, .. } => ty,
            TExpr::Comma { ty, .. } => ty,
        }
    }
}
