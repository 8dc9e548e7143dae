//! The types that the specifier of a declaration or type name gives (C99 6.7.2).

ghost use Rattle.std.specs.Prelude.{◌≡◌, IfOk};
ghost use Rattle.std.specs.Option.{option_copied};
ghost use Rattle.c_typing_scopes.specs.Names.{find};
ghost use Rattle.c_typing_state.specs.Checks.{Finds};
ghost use Rattle.c_typing_judgements.specs.Leaves as spec;

use bk_arithmetic::integer_type::IntegerType;
use bk_containers::{Name, Seq};
use c_tree::{BasicType, TypeNode};
use c_typed_tree::{CType, StructDef};
use c_typing_faults::Kind;
use c_typing_rules::c_typing_declared_types::DeclaredType;
use c_typing_rules::types::integer_type;
use c_typing_scopes::NameTable;
use c_typing_state::{Env, NameMeaning, Notes, Tag, add_struct, add_tag, meaning_of, note};
use std::alloc::{AllocError, Global};

/// The type of some words.
fn basic(words: BasicType) -> CType
    ensures { result ≡ spec.basic words }
{
    match words {
        BasicType::Void => CType::Void,
        BasicType::Char => integer_type(IntegerType::Char),
        BasicType::SignedChar => integer_type(IntegerType::Char),
        BasicType::UnsignedChar => integer_type(IntegerType::UnsignedChar),
        BasicType::Short => integer_type(IntegerType::Short),
        BasicType::UnsignedShort => integer_type(IntegerType::UnsignedShort),
        BasicType::Int => integer_type(IntegerType::Int),
        BasicType::Signed => integer_type(IntegerType::Int),
        BasicType::Unsigned => integer_type(IntegerType::UnsignedInt),
        BasicType::Long => integer_type(IntegerType::Long),
        BasicType::UnsignedLong => integer_type(IntegerType::UnsignedLong),
    }
}

/// A fault, in place of a type.
pub(crate) fn no_type(
    notes: &mut Notes<'_>,
    at: u32,
    kind: Kind,
) -> Result<Option<DeclaredType>, AllocError>
    ensures { Finds (spec.no_type at kind notes.old) result notes.new }
{
    note(notes, at, kind)?;
    Ok(None)
}

/// Equal types.
pub fn copy_types(alloc: Global, list: &[CType]) -> Result<Seq<CType>, AllocError>
    ensures { IfOk result (λ r. r ≡ list.now) }
{
    let mut copies = Seq::new(alloc);
    for ty in list {
        copies.push(ty.copy(alloc)?)?;
    }
    Ok(copies)
}

/// An equal type.
pub fn copy_declared(alloc: Global, ty: &DeclaredType) -> Result<DeclaredType, AllocError>
    ensures { IfOk result (λ r. r ≡ ty.now) }
{
    match ty {
        DeclaredType::Value(ty) => Ok(DeclaredType::Value(ty.copy(alloc)?)),
        DeclaredType::Unsized(element) => Ok(DeclaredType::Unsized(element.copy(alloc)?)),
        DeclaredType::Function { result, parameters } => {
            let parameters = copy_types(alloc, parameters.as_slice())?;
            let result = result.copy(alloc)?;
            Ok(DeclaredType::Function { result, parameters })
        }
    }
}

/// A typedef name.
fn named_type(
    alloc: Global,
    notes: &mut Notes<'_>,
    at: u32,
    meaning: Option<&NameMeaning>,
) -> Result<Option<DeclaredType>, AllocError>
    ensures { Finds (spec.typedef_type at (option_copied meaning.entry) notes.old) result notes.new }
{
    match meaning {
        None => no_type(notes, at, Kind::UnknownName),
        Some(meaning) => match meaning {
            NameMeaning::Faulty => Ok(None),
            NameMeaning::Undefined(_) => no_type(notes, at, Kind::BadType),
            NameMeaning::Local { .. } => no_type(notes, at, Kind::BadType),
            NameMeaning::Object { .. } => no_type(notes, at, Kind::BadType),
            NameMeaning::Constant(_) => no_type(notes, at, Kind::BadType),
            NameMeaning::Function { .. } => no_type(notes, at, Kind::BadType),
            NameMeaning::Typedef(ty) => Ok(Some(copy_declared(alloc, ty)?)),
        },
    }
}

/// What a tag means.
fn tag_named(tags: &NameTable<'_, Tag>, name: &[u8]) -> Option<Tag>
    ensures { result ≡ spec.tag_named (find name.now tags.now) }
{
    match tags.find(name) {
        None => None,
        Some((_, tag)) => Some(*tag),
    }
}

fn int_type() -> Option<DeclaredType>
    ensures { result ≡ spec.int_type }
{
    Some(DeclaredType::Value(integer_type(IntegerType::Int)))
}

/// An enum with a tag, at the tag.
pub fn tagged_enum<'a>(
    notes: &mut Notes<'a>,
    at: u32,
    name: &'a [u8],
) -> Result<Option<DeclaredType>, AllocError>
    ensures { Finds (spec.tagged_enum at name.now notes.old) result notes.new }
{
    match tag_named(&notes.tags, name) {
        None => {
            add_tag(notes, name, Tag::Enum)?;
            Ok(int_type())
        }
        Some(Tag::Enum) => Ok(int_type()),
        Some(Tag::Struct(_)) => no_type(notes, at, Kind::Redeclared),
    }
}

/// An enum, which is `int`.
fn enum_type<'a>(
    notes: &mut Notes<'a>,
    at: u32,
    tag: &'a Option<Name>,
) -> Result<Option<DeclaredType>, AllocError>
    ensures { Finds (spec.enum_type at tag.now notes.old) result notes.new }
{
    match tag {
        None => Ok(int_type()),
        Some(name) => tagged_enum(notes, at, name.as_slice()),
    }
}

/// A struct whose members are not known.
pub fn incomplete(alloc: Global, name: &[u8]) -> Result<StructDef, AllocError>
    ensures { IfOk result (λ r. r ≡ spec.incomplete_struct name.now) }
{
    Ok(StructDef {
        tag: Name::from_slice(alloc, name)?,
        complete: false,
        members: Seq::new(alloc),
        size: 0,
        align: 0,
        depth: 0,
    })
}

/// A struct that is named the first time.
fn new_struct<'a>(
    alloc: Global,
    notes: &mut Notes<'a>,
    name: &'a [u8],
) -> Result<Option<DeclaredType>, AllocError>
    ensures { Finds (spec.new_struct_type name.now notes.old) result notes.new }
{
    let structure = incomplete(alloc, name)?;
    let number = add_struct(alloc, notes, structure)?;
    add_tag(notes, name, Tag::Struct(number))?;
    Ok(Some(DeclaredType::Value(CType::Struct(number))))
}

/// A struct with a tag, at the tag.
pub fn tagged_struct<'a>(
    alloc: Global,
    notes: &mut Notes<'a>,
    at: u32,
    name: &'a [u8],
) -> Result<Option<DeclaredType>, AllocError>
    ensures { Finds (spec.tagged_struct at name.now notes.old) result notes.new }
{
    match tag_named(&notes.tags, name) {
        None => new_struct(alloc, notes, name),
        Some(Tag::Struct(number)) => Ok(Some(DeclaredType::Value(CType::Struct(number)))),
        Some(Tag::Enum) => no_type(notes, at, Kind::Redeclared),
    }
}

/// A struct without a tag, at its word.
fn untagged_struct(notes: &mut Notes<'_>, at: u32) -> Result<Option<DeclaredType>, AllocError>
    ensures { Finds (spec.untagged_struct at notes.old) result notes.new }
{
    match notes.untagged {
        None => no_type(notes, at, Kind::BadType),
        Some(last) => {
            if last.at == at {
                return Ok(Some(DeclaredType::Value(CType::Struct(last.number))));
            }
            no_type(notes, at, Kind::BadType)
        }
    }
}

/// A struct.
fn struct_type<'a>(
    alloc: Global,
    notes: &mut Notes<'a>,
    at: u32,
    tag: &'a Option<Name>,
) -> Result<Option<DeclaredType>, AllocError>
    ensures { Finds (spec.struct_type at tag.now notes.old) result notes.new }
{
    match tag {
        None => untagged_struct(notes, at),
        Some(name) => tagged_struct(alloc, notes, at, name.as_slice()),
    }
}

/// The type that the specifier gives, whatever declarator stands around it. `at` is the place of a typedef name that is
/// none.
#[tactic(auto, unfolding(crate::specs::model::Opens::opens))]
pub fn leaf<'a>(
    alloc: Global,
    node: &'a TypeNode,
    env: &Env<'a>,
    notes: &mut Notes<'a>,
    at: u32,
) -> Result<Option<DeclaredType>, AllocError>
    ensures { Finds (spec.leaf env.now at node.now notes.old) result notes.new }
{
    match node {
        TypeNode::Basic(words) => Ok(Some(DeclaredType::Value(basic(*words)))),
        TypeNode::Named(name) => named_type(alloc, notes, at, meaning_of(env, name.as_slice())),
        TypeNode::Enum { at, tag, .. } => enum_type(notes, *at, tag),
        TypeNode::Struct { at, tag, .. } => struct_type(alloc, notes, *at, tag),
        TypeNode::Pointer(target) => leaf(alloc, target, env, notes, at),
        TypeNode::Array { element, .. } => leaf(alloc, element, env, notes, at),
        TypeNode::Takes { result, .. } => leaf(alloc, result, env, notes, at),
    }
}
