//! Statements (C99 6.8).

use crate::{Declaration, Expr};
use bk_containers::{Box, Seq};

/// A statement, or a declaration in a block. `at` is the offset of the statement's word. The larger parts are in
/// boxes, so that a function which holds a statement takes little of the machine's stack.
#[cycle(statement)]
#[derive(Drop)]
pub enum Stmt {
    Block(Seq<Stmt>),
    If {
        condition: Box<Expr>,
        then: Box<Stmt>,
        otherwise: Option<Box<Stmt>>,
    },
    While {
        condition: Box<Expr>,
        body: Box<Stmt>,
    },
    Do {
        body: Box<Stmt>,
        condition: Box<Expr>,
    },
    For {
        first: Box<ForFirst>,
        condition: Option<Box<Expr>>,
        step: Option<Box<Expr>>,
        body: Box<Stmt>,
    },
    Switch {
        operand: Box<Expr>,
        sections: Seq<Section>,
    },
    Break {
        at: u32,
    },
    Continue {
        at: u32,
    },
    Return {
        at: u32,
        value: Option<Box<Expr>>,
    },
    Expression(Box<Expr>),
    Empty,
    Local(Box<LocalDeclarator>),
}

/// A label of a `switch` with the statements up to the next label. None stand under a label that
/// another one follows at once.
#[cycle(statement)]
#[derive(Drop)]
pub struct Section {
    pub label: Label,
    pub statements: Seq<Stmt>,
}

/// A label of a `switch`, at its word (C99 6.8.1).
#[derive(Drop)]
pub enum Label {
    Case { at: u32, value: Expr },
    Default { at: u32 },
}

/// A declarator in a block, with its initialiser. A declaration with several gives one for each.
#[derive(Drop)]
pub struct LocalDeclarator {
    pub declaration: Declaration,
    pub init: Option<Box<Expr>>,
}

/// The first part of a `for` (C99 6.8.5.3).
#[derive(Drop)]
pub enum ForFirst {
    Nothing,
    Value(Expr),
    Locals(Seq<LocalDeclarator>),
}
