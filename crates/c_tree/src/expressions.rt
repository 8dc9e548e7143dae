//! Expressions (C99 6.5).

use crate::TypeName;
use bk_containers::{Box, Name, Seq};

/// The operators in front of an operand (C99 6.5.3), without `sizeof` and casts.
#[derive(Clone, Copy, Debug, PartialEq, Eq)]
pub enum UnaryOp {
    Increment,
    Decrement,
    Address,
    Dereference,
    Plus,
    Minus,
    Invert,
    Not,
}

/// The operators behind an operand (C99 6.5.2.4).
#[derive(Clone, Copy, Debug, PartialEq, Eq)]
pub enum StepOp {
    Increment,
    Decrement,
}

/// The operators between two operands (C99 6.5.5 to 6.5.14), from the weakest level on.
#[derive(Clone, Copy, Debug, PartialEq, Eq)]
pub enum BinaryOp {
    LogicalOr,
    LogicalAnd,
    Or,
    Xor,
    And,
    Equal,
    NotEqual,
    Less,
    Greater,
    LessEqual,
    GreaterEqual,
    ShiftLeft,
    ShiftRight,
    Add,
    Subtract,
    Multiply,
    Divide,
    Remainder,
}

/// Assignment and the compound assignments (C99 6.5.16).
#[derive(Clone, Copy, Debug, PartialEq, Eq)]
pub enum AssignOp {
    Set,
    Multiply,
    Divide,
    Remainder,
    Add,
    Subtract,
    ShiftLeft,
    ShiftRight,
    And,
    Xor,
    Or,
}

/// An expression. `at` is the offset of its first token. Brackets are no nodes: what stands in them
/// begins past the bracket, and an expression that begins with a bracketed operand at the bracket.
#[cycle(ast)]
#[derive(Drop)]
pub enum Expr {
    Name {
        at: u32,
        name: Name,
    },
    Number {
        at: u32,
        spelling: Name,
    },
    Character {
        at: u32,
        spelling: Name,
    },
    /// One text literal, or several that stand side by side (C99 5.1.1.2, phase 6).
    Text {
        at: u32,
        spellings: Seq<Name>,
    },
    Call {
        at: u32,
        name: Name,
        arguments: Seq<Expr>,
    },
    Unary {
        at: u32,
        op: UnaryOp,
        operand: Box<Expr>,
    },
    Binary {
        at: u32,
        op: BinaryOp,
        left: Box<Expr>,
        right: Box<Expr>,
    },
    Assign {
        at: u32,
        op: AssignOp,
        left: Box<Expr>,
        right: Box<Expr>,
    },
    Conditional {
        at: u32,
        condition: Box<Expr>,
        holds: Box<Expr>,
        fails: Box<Expr>,
    },
    Cast {
        at: u32,
        to: Box<TypeName>,
        operand: Box<Expr>,
    },
    SizeOfValue {
        at: u32,
        operand: Box<Expr>,
    },
    SizeOfType {
        at: u32,
        operand: Box<TypeName>,
    },
    Index {
        at: u32,
        left: Box<Expr>,
        right: Box<Expr>,
    },
    Field {
        at: u32,
        operand: Box<Expr>,
        name: Name,
    },
    Arrow {
        at: u32,
        operand: Box<Expr>,
        name: Name,
    },
    Postfix {
        at: u32,
        op: StepOp,
        operand: Box<Expr>,
    },
    /// The comma operator with all its operands, two or more.
    Comma {
        at: u32,
        operands: Seq<Expr>,
    },
}
