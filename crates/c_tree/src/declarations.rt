//! Units and what stands at file scope (C99 6.7 and 6.9).

use crate::{Declaration, Expr, Stmt, TypeNode};
use bk_containers::{Name, Seq};

/// The storage word of a declaration at file scope, but for `typedef` (C99 6.7.1).
#[derive(Clone, Copy, Debug, PartialEq, Eq)]
pub enum Storage {
    Static,
    Extern,
}

/// A declarator at file scope, or a declaration without one. A declaration with several declarators
/// gives one external for each.
#[derive(Drop)]
pub enum External {
    Typedef(Declaration),
    Object {
        declaration: Declaration,
        storage: Option<Storage>,
        init: Option<Init>,
    },
    /// A declarator that is itself a function declarator, or that a body follows.
    Function {
        declaration: Declaration,
        storage: Option<Storage>,
        end: FunctionEnd,
    },
    Tags {
        storage: Option<Storage>,
        ty: TypeNode,
    },
}

/// What follows the declarator of a function. An initialiser is of no function, which is judged by types.
#[derive(Drop)]
pub enum FunctionEnd {
    Nothing,
    Init(Init),
    Body(Seq<Stmt>),
}

/// An initialiser at file scope. A list stands at its brace (C99 6.7.8).
#[derive(Drop)]
pub enum Init {
    Value(Expr),
    List { at: u32, items: Seq<Init> },
}

/// A unit: its externals in order, and the length of its text in bytes (C99 6.9).
#[derive(Drop)]
pub struct TranslationUnit {
    pub externals: Seq<External>,
    pub length: u32,
}
