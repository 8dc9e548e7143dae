//! Parts of declarations: the start of a specifier, and declarators before they meet their type.

use crate::Specifier;
use bk_containers::{Name, Seq};
use c_tree::{BasicType, Expr, Parameter};

/// What a specifier starts with: the basic type that its words spell, or what stands where there are none.
#[derive(Clone, Copy, Debug, PartialEq, Eq)]
pub enum SpecifierStart {
    Basic(BasicType),
    Other(Specifier),
}

/// What a declarator makes of the type that it stands behind.
#[derive(Drop)]
pub enum Shape {
    Pointer,
    Array(Option<Expr>),
    Takes(Seq<Parameter>),
}

/// A declared name at its place.
#[derive(Drop)]
pub struct DeclaredName {
    pub at: u32,
    pub name: Name,
}

/// A declarator: its name, if it has one, and its shapes from the name outwards (C99 6.7.5).
#[derive(Drop)]
pub struct Declarator {
    pub name: Option<DeclaredName>,
    pub shapes: Seq<Shape>,
}

/// Whether a declarator has a name.
#[derive(Clone, Copy, Debug, PartialEq, Eq)]
pub enum NameRequirement {
    Required,
    /// That of a member, which may also be the name of a type.
    Member,
    Optional,
    Refused,
}
