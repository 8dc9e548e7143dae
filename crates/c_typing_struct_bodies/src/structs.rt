//! The struct or enum of a body (C99 6.7.2.1 to 6.7.2.3).

ghost use Rattle.std.specs.Prelude.{◌≡◌, ◌≤◌, All, IfOk, IsTrue, OnOk, is_some, slice_get, slice_set};
ghost use Rattle.std.specs.Bool.{OnTrue};
ghost use Rattle.std.specs.List.{list_all};
ghost use Rattle.c_typing_scopes.specs.Names.{find};
ghost use Rattle.c_typed_tree.specs.Layout as layout;
ghost use Rattle.c_typed_tree.specs.Layout.{is_object};
ghost use Rattle.c_typed_tree.specs.Typing.{depth_of, most_depth};
ghost use Rattle.c_typed_tree.specs.View.{type_view};
ghost use Rattle.c_typing_state.specs.Checks.{Finds};
ghost use Rattle.c_typing_struct_bodies.specs.Members.{is_member_type};
ghost use Rattle.c_typing_struct_bodies.specs.Structs as spec;

use crate::members::{Members, is_member};
use bk_containers::{Name, Seq};
use c_typed_tree::StructDef;
use c_typing_faults::Kind;
use c_typing_judgements::leaves::{incomplete, tagged_enum, tagged_struct};
use c_typing_judgements::members::struct_number;
use c_typing_rules::c_typing_declared_types::DeclaredType;
use c_typing_scopes::NameTable;
use c_typing_state::{Notes, UntaggedStruct, add_struct, note};
use c_typing_struct_layout::{Field, lay_out};
use std::alloc::{AllocError, Global};
use std::mem::replace;

/// Whether a tag has a body.
fn is_defined(defined: &NameTable<'_, ()>, name: &[u8]) -> bool
    ensures { result ≡ is_some (find name.now defined.now) }
{
    defined.find(name).is_some()
}

/// A tag has a body from here on.
pub(crate) fn add_body<'a>(
    defined: &mut NameTable<'a, ()>,
    tag: &'a Option<Name>,
) -> Result<(), AllocError>
    ensures { OnOk result (defined.new ≡ spec.with_body tag.now defined.old) }
{
    match tag {
        None => Ok(()),
        Some(name) => defined.push(name.as_slice(), ()),
    }
}

/// The body of an enum with a tag begins.
fn tagged_body<'a>(
    defined: &NameTable<'a, ()>,
    notes: &mut Notes<'a>,
    at: u32,
    name: &'a [u8],
) -> Result<(), AllocError>
    ensures { OnOk result (notes.new ≡ spec.tagged_body defined.now at name.now notes.old) }
{
    if is_defined(defined, name) {
        return note(notes, at, Kind::Redeclared);
    }
    tagged_enum(notes, at, name)?;
    Ok(())
}

/// The body of an enum begins.
pub(crate) fn begin_enum<'a>(
    defined: &NameTable<'a, ()>,
    notes: &mut Notes<'a>,
    at: u32,
    tag: &'a Option<Name>,
) -> Result<(), AllocError>
    ensures { OnOk result (notes.new ≡ spec.enum_begun defined.now at tag.now notes.old) }
{
    match tag {
        None => Ok(()),
        Some(name) => tagged_body(defined, notes, at, name.as_slice()),
    }
}

/// The number of a struct.
fn number_of(ty: Option<DeclaredType>) -> Option<u32>
    ensures { result ≡ spec.struct_number_of ty }
{
    match ty {
        None => None,
        Some(ty) => match ty {
            DeclaredType::Value(ty) => struct_number(&ty),
            DeclaredType::Unsized(_) => None,
            DeclaredType::Function { .. } => None,
        },
    }
}

fn add_untagged(alloc: Global, notes: &mut Notes<'_>) -> Result<Option<u32>, AllocError>
    ensures { Finds (spec.add_untagged notes.old) result notes.new }
{
    let structure = incomplete(alloc, &[])?;
    let number = add_struct(alloc, notes, structure)?;
    Ok(Some(number))
}

fn number_for_tag<'a>(
    alloc: Global,
    notes: &mut Notes<'a>,
    at: u32,
    name: &'a [u8],
) -> Result<Option<u32>, AllocError>
    ensures { Finds (spec.number_for_tag at name.now notes.old) result notes.new }
{
    let ty = tagged_struct(alloc, notes, at, name)?;
    Ok(number_of(ty))
}

fn no_body(notes: &mut Notes<'_>, at: u32) -> Result<Option<u32>, AllocError>
    ensures { Finds (spec.no_body at notes.old) result notes.new }
{
    note(notes, at, Kind::Redeclared)?;
    Ok(None)
}

/// The body of a struct begins: gives the number of the struct, unless this is no body of its tag.
pub(crate) fn begin_struct<'a>(
    alloc: Global,
    defined: &NameTable<'a, ()>,
    notes: &mut Notes<'a>,
    at: u32,
    tag: &'a Option<Name>,
) -> Result<Option<u32>, AllocError>
    ensures { Finds (spec.struct_begun defined.now at tag.now notes.old) result notes.new }
{
    match tag {
        None => add_untagged(alloc, notes),
        Some(name) => {
            if is_defined(defined, name.as_slice()) {
                return no_body(notes, at);
            }
            number_for_tag(alloc, notes, at, name.as_slice())
        }
    }
}

/// Whether members may have the types of these.
fn are_members(structs: &[StructDef], fields: &[Field]) -> bool
    ensures value { result ≡ list_all (λ f. is_member_type structs.now f.ty) fields.now }
    ensures objects { OnTrue result (All (λ f. IsTrue (is_object structs.now (type_view f.ty))) fields.now) }
    ensures shallow { OnTrue result (All (λ f. depth_of structs.now (type_view f.ty) ≤ most_depth) fields.now) }
{
    for field in fields {
        if !is_member(structs, &field.ty) {
            return false;
        }
    }
    true
}

/// The struct of these members.
fn struct_where(
    alloc: Global,
    structs: &[StructDef],
    tag: &[u8],
    fields: &[Field],
) -> Result<Option<StructDef>, AllocError>
    ensures { IfOk result (λ r. r ≡ spec.struct_where structs.now tag.now fields.now) }
{
    if are_members(structs, fields) {
        let tag = Name::from_slice(alloc, tag)?;
        return lay_out(alloc, structs, tag, fields);
    }
    Ok(None)
}

fn tag_name(tag: &Option<Name>) -> &[u8]
    ensures { result.now ≡ spec.tag_name tag.now }
{
    match tag {
        None => &[],
        Some(name) => name.as_slice(),
    }
}

fn set_element<T: Drop>(alloc: Global, list: &mut Seq<T>, place: usize, item: T)
    ensures { list.new ≡ slice_set list.old place item }
{
    let mut items = Seq::into_vec(replace(list, Seq::new(alloc)));
    if place < items.len() {
        items[place] = item;
    }
    *list = Seq::from_vec(items);
}

/// Writes down a struct with the names of its members.
fn set_struct<'a>(
    alloc: Global,
    notes: &mut Notes<'a>,
    number: u32,
    structure: StructDef,
    members: &mut Members<'a>,
)
    ensures { notes.new ≡ spec.with_struct number structure members.old.names notes.old }
{
    let names = replace(&mut members.names, NameTable::new(alloc));
    set_element(alloc, &mut notes.structs, number as usize, structure);
    set_element(alloc, &mut notes.members, number as usize, names);
}

/// Whether a struct is complete.
fn is_complete(structs: &[StructDef], number: u32) -> bool
    ensures { result ≡ layout.is_complete (slice_get structs.now number) }
{
    match structs.get(number as usize) {
        Some(structure) => structure.complete,
        None => false,
    }
}

/// Writes down a struct with the names of its members, unless it is complete already.
fn set_members<'a>(
    alloc: Global,
    notes: &mut Notes<'a>,
    number: u32,
    structure: StructDef,
    members: &mut Members<'a>,
)
    ensures { notes.new ≡ spec.with_members number structure members.old.names notes.old }
{
    if is_complete(notes.structs.as_slice(), number) {
        return;
    }
    set_struct(alloc, notes, number, structure, members);
}

/// A struct that is larger than the data may be, unless a member has a fault.
fn too_large(notes: &mut Notes<'_>, at: u32, faulty: bool) -> Result<(), AllocError>
    ensures { OnOk result (notes.new ≡ spec.too_large at faulty notes.old) }
{
    if faulty {
        return Ok(());
    }
    note(notes, at, Kind::BadType)
}

/// A struct without a tag is that of the declarators that follow.
fn set_untagged(notes: &mut Notes<'_>, at: u32, tag: &Option<Name>, number: u32)
    ensures { notes.new ≡ spec.with_untagged at tag.now number notes.old }
{
    match tag {
        None => notes.untagged = Some(UntaggedStruct { at, number }),
        Some(_) => {}
    }
}

fn complete<'a>(
    alloc: Global,
    notes: &mut Notes<'a>,
    at: u32,
    number: u32,
    structure: Option<StructDef>,
    members: &mut Members<'a>,
) -> Result<(), AllocError>
    ensures { OnOk result (notes.new ≡ spec.finish_struct at number members.old structure notes.old) }
{
    match structure {
        None => too_large(notes, at, members.faulty),
        Some(structure) => {
            set_members(alloc, notes, number, structure, members);
            Ok(())
        }
    }
}

/// The body of a struct ends, of which the number is given, unless this is no body of its tag.
pub(crate) fn end_struct<'a>(
    alloc: Global,
    notes: &mut Notes<'a>,
    at: u32,
    tag: &Option<Name>,
    number: Option<u32>,
    members: &mut Members<'a>,
) -> Result<(), AllocError>
    ensures { OnOk result (notes.new ≡ spec.struct_ended at tag.now number members.old notes.old) }
{
    match number {
        None => Ok(()),
        Some(number) => {
            let structs = notes.structs.as_slice();
            let made = struct_where(alloc, structs, tag_name(tag), members.fields.as_slice())?;
            complete(alloc, notes, at, number, made, members)?;
            set_untagged(notes, at, tag, number);
            Ok(())
        }
    }
}
