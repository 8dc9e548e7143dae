//! The parts of objects.

ghost use Rattle.std.specs.Prelude.{◌≡◌, IfOk, slice_get};
ghost use Rattle.c_typed_tree.specs.Layout as layout;
ghost use Rattle.c_typed_tree.specs.Typing as typing;
ghost use Rattle.c_typed_tree.specs.View.{type_view};
ghost use Rattle.c_typing_initial_values.specs.Parts as spec;

use c_typed_tree::layout::size_of;
use c_typed_tree::{CType, StructDef};
use c_typing_rules::types::{is_object, is_struct};
use std::alloc::{AllocError, Global};

/// A part of an object: an element of an array, or a member of a struct.
#[derive(Drop)]
pub struct ObjectPart {
    /// Its place in the object, in bytes from the start.
    pub place: u64,
    pub ty: CType,
}

#[tactic(auto, unfolding(c_typed_tree::specs::model::View::opens))]
fn is_array(ty: &CType) -> bool
    ensures { result ≡ typing.is_array (type_view ty.now) }
{
    match ty {
        CType::Void => false,
        CType::Int { .. } => false,
        CType::Pointer(_) => false,
        CType::Array(_, _) => true,
        CType::Struct(_) => false,
    }
}

/// Whether objects of the type have parts: arrays and structs have.
pub fn is_aggregate(ty: &CType) -> bool
    ensures { result ≡ spec.is_aggregate ty.now }
{
    is_array(ty) || is_struct(ty)
}

/// The size of an element in bytes. What is larger than the data may be is refused as want of memory.
fn element_size(structs: &[StructDef], element: &CType) -> Result<u64, AllocError>
    ensures { IfOk result (λ n. n ≡ layout.size_of structs.now (type_view element.now)) }
{
    if is_object(structs, element) {
        return Ok(size_of(structs, element));
    }
    Err(AllocError)
}

fn element_at(
    alloc: Global,
    structs: &[StructDef],
    element: &CType,
    length: u64,
    k: u64,
) -> Result<Option<ObjectPart>, AllocError>
    ensures { IfOk result (λ r. r ≡ spec.part_of_element structs.now element.now length k) }
{
    if !(k < length) {
        return Ok(None);
    }
    let size = element_size(structs, element)?;
    match size.checked_mul(k) {
        None => Err(AllocError),
        Some(place) => {
            let ty = element.copy(alloc)?;
            Ok(Some(ObjectPart { place, ty }))
        }
    }
}

fn member_at(
    alloc: Global,
    structs: &[StructDef],
    number: u32,
    k: u64,
) -> Result<Option<ObjectPart>, AllocError>
    ensures { IfOk result (λ r. r ≡ spec.part_of_member (layout.struct_member (slice_get structs.now number) k)) }
{
    match structs.get(number as usize) {
        None => Ok(None),
        Some(structure) => match structure.members.as_slice().get(k as usize) {
            None => Ok(None),
            Some(member) => {
                let ty = member.ty.copy(alloc)?;
                Ok(Some(ObjectPart {
                    place: member.offset,
                    ty,
                }))
            }
        },
    }
}

/// The part of an object of a type that has a number, from 0 on; `None` where there are no more. It fails only where
/// memory is short, or where the place has no number of 64 bits, which no place in an object does.
#[tactic(auto, unfolding(crate::specs::model::Opens::opens))]
pub fn part_of(
    alloc: Global,
    structs: &[StructDef],
    ty: &CType,
    k: u64,
) -> Result<Option<ObjectPart>, AllocError>
    ensures { IfOk result (λ r. r ≡ spec.part_of structs.now ty.now k) }
{
    match ty {
        CType::Void => Ok(None),
        CType::Int { .. } => Ok(None),
        CType::Pointer(_) => Ok(None),
        CType::Array(element, length) => element_at(alloc, structs, element, *length, k),
        CType::Struct(number) => member_at(alloc, structs, *number, k),
    }
}

/// Whether it is `char` or `unsigned char`.
#[tactic(auto, unfolding(c_typed_tree::specs::model::View::opens))]
pub fn is_character(ty: &CType) -> bool
    ensures { result ≡ spec.is_character (type_view ty.now) }
{
    match ty {
        CType::Void => false,
        CType::Int { bytes, .. } => *bytes == 1,
        CType::Pointer(_) => false,
        CType::Array(_, _) => false,
        CType::Struct(_) => false,
    }
}

fn room_with(element: &CType, length: u64) -> Option<u64>
    ensures { result ≡ spec.room_with element.now length }
{
    if is_character(element) {
        return Some(length);
    }
    None
}

/// The length of an array that a text may initialise.
#[tactic(auto, unfolding(crate::specs::model::Opens::opens))]
pub fn room_of(ty: &CType) -> Option<u64>
    ensures { result ≡ spec.part_room ty.now }
{
    match ty {
        CType::Void => None,
        CType::Int { .. } => None,
        CType::Pointer(_) => None,
        CType::Array(element, length) => room_with(element, *length),
        CType::Struct(_) => None,
    }
}

/// Whether there is room for a text, without the zero at its end if need be.
pub fn is_room_for(room: u64, text: &[u8]) -> bool
    ensures { result ≡ spec.is_room_for room text.now }
{
    text.len() as u64 <= room.saturating_add(1)
}
