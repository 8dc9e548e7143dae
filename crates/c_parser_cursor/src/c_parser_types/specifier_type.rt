//! The types that specifiers spell.

ghost use Rattle.std.specs.Prelude.{◌≡◌, IfOk};
ghost use Rattle.c_tree.specs.declared.types.TypeNode as nodes;
ghost use Rattle.c_parser_grammar.specs.Types as types;
ghost use Rattle.c_parser_grammar.specs.ParseExpr as model;

use bk_containers::{Name, Seq};
use c_parser_grammar::Specifier;
use c_tree::{BasicType, Constant, Declaration, TypeNode};
use std::alloc::AllocError;
use std::marker::Model;

/// The type that a specifier spells, before its declarators: words, a name, an `enum` or a `struct`.
#[derive(Drop)]
pub struct SpecifierType {
    ty: TypeNode,
}

impl Model for SpecifierType {
    ghost use Rattle.std.specs.Prelude.{IsTrue};
    ghost use Rattle.std.specs.Coded.{codes};
    ghost use Rattle.c_tree.specs.declared.types.TypeNode.{TypeNode};
    ghost use Rattle.c_tree.specs.contracts.types.TypeNode as contract;
    ghost use Rattle.c_parser_cursor.specs.c_parser_types.Shapes.{is_base};

    ghost Value = { TypeNode };

    ghost coded = { Prim.hlevel (codes, contract.the_row.coded) };

    ghost view = { λ b. b.ty };

    ghost invariant = { λ b. IsTrue (is_base b.ty) };
}

impl SpecifierType {
    /// A type that words spell (C99 6.7.2).
    pub fn basic(basic: BasicType) -> SpecifierType
        ensures { result ≡ nodes.Basic basic }
    {
        SpecifierType {
            ty: TypeNode::Basic(basic),
        }
    }

    /// The type that a name of a type stands for (C99 6.7.7).
    pub fn of_name(name: Name) -> SpecifierType
        ensures { result ≡ nodes.Named name }
    {
        SpecifierType {
            ty: TypeNode::Named(name),
        }
    }

    /// A `struct` with its members, or without them.
    pub fn structure(at: u32, tag: Option<Name>, members: Option<Seq<Declaration>>) -> SpecifierType
        ensures { result ≡ nodes.Struct at tag members }
    {
        SpecifierType {
            ty: TypeNode::Struct { at, tag, members },
        }
    }

    /// An `enum` with its constants, or without them.
    pub fn enumeration(
        at: u32,
        tag: Option<Name>,
        constants: Option<Seq<Constant>>,
    ) -> SpecifierType
        ensures { result ≡ nodes.Enum at tag constants }
    {
        SpecifierType {
            ty: TypeNode::Enum { at, tag, constants },
        }
    }

    /// The type of a tag that has no braces.
    pub fn tag_type(word: Specifier, at: u32, name: Name) -> SpecifierType
        ensures answers { result ≡ model.tag_type word at name }
        ensures bare { types.without_body result ≡ result }
    {
        match word {
            Specifier::Struct => SpecifierType::structure(at, Some(name), None),
            _ => SpecifierType::enumeration(at, Some(name), None),
        }
    }

    /// The type of the further declarators of a declaration, which has no braces.
    pub fn bare(&self) -> Result<SpecifierType, AllocError>
        ensures { IfOk result (λ b. b ≡ types.without_body self.now) }
    {
        match &self.ty {
            TypeNode::Basic(basic) => Ok(SpecifierType::basic(*basic)),
            TypeNode::Named(name) => Ok(SpecifierType::of_name(name.copy()?)),
            TypeNode::Enum { at, tag, .. } => Ok(SpecifierType::enumeration(
                *at,
                copy_of(tag)?,
                None,
            )),
            TypeNode::Struct { at, tag, .. } => Ok(SpecifierType::structure(
                *at,
                copy_of(tag)?,
                None,
            )),
            TypeNode::Pointer(_) | TypeNode::Array { .. } | TypeNode::Takes { .. } => {
                unreachable!()
            }
        }
    }

    /// The type itself.
    pub fn into_type(self) -> TypeNode
        ensures { result ≡ self }
    {
        let SpecifierType { ty } = self;
        ty
    }
}

/// The same name, or none.
fn copy_of(name: &Option<Name>) -> Result<Option<Name>, AllocError>
    ensures { IfOk result (λ n. n ≡ name.now) }
{
    match name {
        None => Ok(None),
        Some(name) => Ok(Some(name.copy()?)),
    }
}
