//! Typed statements (C99 6.8).

use crate::TExpr;
use bk_containers::{Box, Seq};

/// A statement, or a declaration in a block. The larger parts are in boxes, so that a function which holds a statement
/// takes little of the machine's stack.
#[cycle(statement)]
#[derive(Drop)]
pub enum TStmt {
    Block(Seq<TStmt>),
    If {
        condition: Box<TExpr>,
        then: Box<TStmt>,
        otherwise: Option<Box<TStmt>>,
    },
    While {
        condition: Box<TExpr>,
        body: Box<TStmt>,
    },
    Do {
        body: Box<TStmt>,
        condition: Box<TExpr>,
    },
    For {
        first: Box<TFirst>,
        condition: Option<Box<TExpr>>,
        step: Option<Box<TExpr>>,
        body: Box<TStmt>,
    },
    Switch {
        operand: Box<TExpr>,
        sections: Seq<TSection>,
    },
    Break,
    Continue,
    Return(Option<Box<TExpr>>),
    Expression(Box<TExpr>),
    Empty,
    Local(TLocal),
}

/// A label of a `switch` with the statements up to the next label.
#[cycle(statement)]
#[derive(Drop)]
pub struct TSection {
    pub label: TLabel,
    pub statements: Seq<TStmt>,
}

/// A label of a `switch` (C99 6.8.1).
#[derive(Clone, Copy, Debug, PartialEq, Eq)]
pub enum TLabel {
    /// A value, as a word of the promoted type of the operand.
    Case(u64),
    Default,
}

/// The declaration of a local, by its number in the function, with its initialiser.
#[derive(Drop)]
pub struct TLocal {
    pub number: u32,
    pub init: Option<Box<TExpr>>,
}

/// The first part of a `for` (C99 6.8.5.3).
#[derive(Drop)]
pub enum TFirst {
    Nothing,
    Value(Box<TExpr>),
    Locals(Seq<TLocal>),
}
