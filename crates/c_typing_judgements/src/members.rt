//! Members (C99 6.5.2.3).

ghost use Rattle.std.specs.Prelude.{◌≡◌, IfOk, slice_get};
ghost use Rattle.std.specs.Option.{option_copied};
ghost use Rattle.c_typed_tree.specs.Layout.{struct_member};
ghost use Rattle.c_typed_tree.specs.View.{type_view};
ghost use Rattle.c_typing_state.specs.Checks.{Finds, each};
ghost use Rattle.c_typing_judgements.specs.Members as spec;

use c_typed_tree::{CType, StructDef};
use c_typing_place_rules::members::{FoundMember, arrow, field};
use c_typing_rules::TypedExpression;
use c_typing_rules::conversions::decay;
use c_typing_scopes::NameTable;
use c_typing_state::{Notes, note_fault};
use std::alloc::{AllocError, Global};

/// What the name of a member means in a struct.
#[derive(Drop)]
pub enum MemberMeaning {
    /// There is no such member.
    Nothing,
    /// Its declaration has a fault.
    Faulty,
    Member(FoundMember),
}

/// The number of a struct type.
#[tactic(auto, unfolding(c_typed_tree::specs::model::View::opens))]
pub fn struct_number(ty: &CType) -> Option<u32>
    ensures { result ≡ spec.struct_number (type_view ty.now) }
{
    match ty {
        CType::Void => None,
        CType::Int { .. } => None,
        CType::Pointer(_) => None,
        CType::Array(_, _) => None,
        CType::Struct(number) => Some(*number),
    }
}

/// The number of the struct that a pointer type points to.
#[tactic(auto, unfolding(c_typed_tree::specs::model::View::opens))]
fn target_number(ty: &CType) -> Option<u32>
    ensures { result ≡ spec.target_number (type_view ty.now) }
{
    match ty {
        CType::Void => None,
        CType::Int { .. } => None,
        CType::Pointer(target) => struct_number(target),
        CType::Array(_, _) => None,
        CType::Struct(_) => None,
    }
}

/// The member of a struct with a number.
fn member_at(
    alloc: Global,
    structs: &[StructDef],
    structure: u32,
    number: u32,
) -> Result<MemberMeaning, AllocError>
    ensures { IfOk result (λ r. r ≡ spec.member_at number (struct_member (slice_get structs.now structure) number)) }
{
    match structs.get(structure as usize) {
        None => Ok(MemberMeaning::Nothing),
        Some(structure) => match structure.members.as_slice().get(number as usize) {
            None => Ok(MemberMeaning::Nothing),
            Some(member) => {
                let ty = member.ty.copy(alloc)?;
                Ok(MemberMeaning::Member(FoundMember { number, ty }))
            }
        },
    }
}

/// What is declared of a name: the number of the member, if its declaration has no fault.
fn declared_number(members: &NameTable<'_, Option<u32>>, name: &[u8]) -> Option<Option<u32>>
    ensures { result ≡ spec.declared_number name.now members.now }
{
    match members.find(name) {
        None => None,
        Some((_, number)) => Some(*number),
    }
}

fn number_in(members: Option<&NameTable<'_, Option<u32>>>, name: &[u8]) -> Option<Option<u32>>
    ensures { result ≡ spec.number_in name.now (option_copied members.entry) }
{
    match members {
        None => None,
        Some(members) => declared_number(members, name),
    }
}

/// What the name of a member means in a struct.
fn member_of(
    alloc: Global,
    notes: &Notes<'_>,
    structure: Option<u32>,
    name: &[u8],
) -> Result<MemberMeaning, AllocError>
    ensures { IfOk result (λ r. r ≡ spec.member_of notes.now structure name.now) }
{
    match structure {
        None => Ok(MemberMeaning::Nothing),
        Some(structure) => {
            match number_in(notes.members.as_slice().get(structure as usize), name) {
                None => Ok(MemberMeaning::Nothing),
                Some(None) => Ok(MemberMeaning::Faulty),
                Some(Some(number)) => {
                    member_at(alloc, notes.structs.as_slice(), structure, number)
                }
            }
        }
    }
}

/// A member of a place.
fn field_in(
    alloc: Global,
    notes: &mut Notes<'_>,
    at: u32,
    a: TypedExpression,
    found: MemberMeaning,
) -> Result<Option<TypedExpression>, AllocError>
    ensures { Finds (spec.field_in at a found notes.old) result notes.new }
{
    match found {
        MemberMeaning::Nothing => {
            let ruling = field(alloc, at, a, None);
            note_fault(notes, ruling)
        }
        MemberMeaning::Faulty => Ok(None),
        MemberMeaning::Member(found) => {
            let ruling = field(alloc, at, a, Some(found));
            note_fault(notes, ruling)
        }
    }
}

fn field_named(
    alloc: Global,
    notes: &mut Notes<'_>,
    at: u32,
    name: &[u8],
    a: TypedExpression,
) -> Result<Option<TypedExpression>, AllocError>
    ensures { Finds (spec.field_named at name.now a notes.old) result notes.new }
{
    let found = member_of(alloc, notes, struct_number(&a.ty), name)?;
    field_in(alloc, notes, at, a, found)
}

/// `a.name`.
pub fn field_of(
    alloc: Global,
    notes: &mut Notes<'_>,
    at: u32,
    name: &[u8],
    a: Option<TypedExpression>,
) -> Result<Option<TypedExpression>, AllocError>
    ensures { Finds (each a (spec.field_named at name.now) notes.old) result notes.new }
{
    match a {
        None => Ok(None),
        Some(a) => field_named(alloc, notes, at, name, a),
    }
}

/// A member of what a pointer leads to.
fn arrow_in(
    alloc: Global,
    notes: &mut Notes<'_>,
    at: u32,
    a: TypedExpression,
    found: MemberMeaning,
) -> Result<Option<TypedExpression>, AllocError>
    ensures { Finds (spec.arrow_in at a found notes.old) result notes.new }
{
    match found {
        MemberMeaning::Nothing => {
            let ruling = arrow(alloc, notes.structs.as_slice(), at, a, None);
            note_fault(notes, ruling)
        }
        MemberMeaning::Faulty => Ok(None),
        MemberMeaning::Member(found) => {
            let ruling = arrow(alloc, notes.structs.as_slice(), at, a, Some(found));
            note_fault(notes, ruling)
        }
    }
}

fn arrow_named(
    alloc: Global,
    notes: &mut Notes<'_>,
    at: u32,
    name: &[u8],
    a: TypedExpression,
) -> Result<Option<TypedExpression>, AllocError>
    ensures { Finds (spec.arrow_named at name.now a notes.old) result notes.new }
{
    let value = decay(alloc, a)?;
    let found = member_of(alloc, notes, target_number(&value.ty), name)?;
    arrow_in(alloc, notes, at, value, found)
}

/// `a->name`.
pub fn arrow_of(
    alloc: Global,
    notes: &mut Notes<'_>,
    at: u32,
    name: &[u8],
    a: Option<TypedExpression>,
) -> Result<Option<TypedExpression>, AllocError>
    ensures { Finds (each a (spec.arrow_named at name.now) notes.old) result notes.new }
{
    match a {
        None => Ok(None),
        Some(a) => arrow_named(alloc, notes, at, name, a),
    }
}
