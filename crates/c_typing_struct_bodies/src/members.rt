//! The members of a body (C99 6.7.2.1).

ghost use Rattle.std.specs.Prelude.{◌≡◌, OnOk, is_some};
ghost use Rattle.c_typing_scopes.specs.Names.{find};
ghost use Rattle.c_typing_state.specs.Checks.{Finds, each};
ghost use Rattle.c_typing_struct_bodies.specs.Members as spec;

use bk_containers::{Name, Seq};
use c_typed_tree::{CType, StructDef};
use c_typing_faults::Kind;
use c_typing_rules::c_typing_declared_types::{DeclaredType, MOST_DEPTH, is_deep_at_most};
use c_typing_rules::types::is_object;
use c_typing_scopes::NameTable;
use c_typing_state::{Notes, note};
use c_typing_struct_layout::Field;
use std::alloc::{AllocError, Global};

/// The members of a body as far as they are judged.
#[derive(Drop)]
pub struct Members<'a> {
    /// Each name with the number of its member, if that has no fault.
    pub names: NameTable<'a, Option<u32>>,
    /// The members without a fault, in order.
    pub fields: Seq<Field>,
    /// Whether one has a fault.
    pub faulty: bool,
}

pub(crate) fn no_members<'a>(alloc: Global) -> Members<'a>
    ensures { result ≡ spec.no_members }
{
    Members {
        names: NameTable::new(alloc),
        fields: Seq::new(alloc),
        faulty: false,
    }
}

/// Whether a member may have the type.
pub fn is_member(structs: &[StructDef], ty: &CType) -> bool
    ensures { result ≡ spec.is_member_type structs.now ty.now }
{
    is_object(structs, ty) && is_deep_at_most(structs, MOST_DEPTH, ty)
}

fn no_member(notes: &mut Notes<'_>, at: u32) -> Result<Option<CType>, AllocError>
    ensures { Finds (spec.no_member at notes.old) result notes.new }
{
    note(notes, at, Kind::BadType)?;
    Ok(None)
}

/// The type of a member.
fn member_type(
    notes: &mut Notes<'_>,
    at: u32,
    ty: DeclaredType,
) -> Result<Option<CType>, AllocError>
    ensures { Finds (spec.member_type at ty notes.old) result notes.new }
{
    match ty {
        DeclaredType::Value(ty) => {
            if is_member(notes.structs.as_slice(), &ty) {
                return Ok(Some(ty));
            }
            no_member(notes, at)
        }
        DeclaredType::Unsized(_) => no_member(notes, at),
        DeclaredType::Function { .. } => no_member(notes, at),
    }
}

fn optional_type(
    notes: &mut Notes<'_>,
    at: u32,
    ty: Option<DeclaredType>,
) -> Result<Option<CType>, AllocError>
    ensures { Finds (each ty (spec.member_type at) notes.old) result notes.new }
{
    match ty {
        None => Ok(None),
        Some(ty) => member_type(notes, at, ty),
    }
}

fn has_name(members: &Members<'_>, name: &[u8]) -> bool
    ensures { result ≡ is_some (find name.now members.now.names) }
{
    members.names.find(name).is_some()
}

/// Adds a member, whose type may have a fault.
fn add_member<'a>(
    alloc: Global,
    members: &mut Members<'a>,
    name: &'a [u8],
    ty: Option<CType>,
) -> Result<(), AllocError>
    ensures { OnOk result (members.new ≡ spec.with_member name.now ty members.old) }
{
    match ty {
        None => {
            members.faulty = true;
            members.names.push(name, None)
        }
        Some(ty) => match u32::try_from(members.fields.len()) {
            Err(_) => Err(AllocError),
            Ok(number) => {
                members.names.push(name, Some(number))?;
                let name = Name::from_slice(alloc, name)?;
                members.fields.push(Field { name, ty })
            }
        },
    }
}

/// Declares a member of a type, unless there is one of its name.
pub(crate) fn declare_member<'a>(
    alloc: Global,
    members: &mut Members<'a>,
    notes: &mut Notes<'a>,
    at: u32,
    name: &'a [u8],
    ty: Option<DeclaredType>,
) -> Result<(), AllocError>
    ensures { OnOk result ((members.new, notes.new) ≡ spec.member_declared at name.now members.old ty notes.old) }
{
    let ty = optional_type(notes, at, ty)?;
    if has_name(members, name) {
        members.faulty = true;
        return note(notes, at, Kind::NoMember);
    }
    add_member(alloc, members, name, ty)
}
