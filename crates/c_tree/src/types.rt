//! The types that declarations and type names spell.

use crate::Expr;
use bk_containers::{Box, Name, Seq};

/// A type of C99 6.7.2 that words alone spell, without the words that may be left out.
#[derive(Clone, Copy, Debug, PartialEq, Eq)]
pub enum BasicType {
    Void,
    Char,
    SignedChar,
    UnsignedChar,
    Short,
    UnsignedShort,
    Int,
    Signed,
    Unsigned,
    Long,
    UnsignedLong,
}

/// A type as it is spelled (C99 6.7.2 to 6.7.6).
///
/// In `Enum` and `Struct` the place `at` is that of the tag, or of the word `enum` or `struct` where
/// there is no tag. The body stands under the first declarator of its declaration alone: under the
/// others the same `at` stands with no body, and means the same type.
#[cycle(ast)]
#[derive(Drop)]
pub enum TypeNode {
    Basic(BasicType),
    Named(Name),
    Enum {
        at: u32,
        tag: Option<Name>,
        constants: Option<Seq<Constant>>,
    },
    Struct {
        at: u32,
        tag: Option<Name>,
        members: Option<Seq<Declaration>>,
    },
    Pointer(Box<TypeNode>),
    Array {
        element: Box<TypeNode>,
        length: Option<Box<Expr>>,
    },
    /// A function type. The lone parameter `void` is no parameter.
    Takes {
        result: Box<TypeNode>,
        parameters: Seq<Parameter>,
    },
}

/// An enumeration constant at its name, with the expression that gives its value (C99 6.7.2.2).
#[cycle(ast)]
#[derive(Drop)]
pub struct Constant {
    pub at: u32,
    pub name: Name,
    pub value: Option<Expr>,
}

/// A name that is declared with its type: a member, or a declarator at file scope or in a block.
#[cycle(ast)]
#[derive(Drop)]
pub struct Declaration {
    pub at: u32,
    pub name: Name,
    pub ty: TypeNode,
}

/// A parameter, at its name, or at the first token of its declaration where it has none (C99 6.7.5.3).
#[cycle(ast)]
#[derive(Drop)]
pub struct Parameter {
    pub at: u32,
    pub name: Option<Name>,
    pub ty: TypeNode,
}

/// A type name, at its first token (C99 6.7.6).
#[cycle(ast)]
#[derive(Drop)]
pub struct TypeName {
    pub at: u32,
    pub ty: TypeNode,
}
