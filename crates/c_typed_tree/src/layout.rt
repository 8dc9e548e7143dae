//! How types lie in memory (C99 6.5.3.4 and 6.7.2.1). No call takes memory.

ghost use Rattle.std.specs.Prelude.{◌≡◌, IsTrue, slice_get};
ghost use Rattle.c_typed_tree.specs.View.{type_view};
ghost use Rattle.c_typed_tree.specs.Layout.{integer_of, size_of, align_of, is_object, struct_size, struct_align, offset_of};

use crate::{CType, StructDef};
use bk_arithmetic::integer_type::IntegerType;

/// The integer type that a type is, if it is one.
#[tactic(auto, unfolding(crate::specs::model::View::opens))]
pub fn integer_of(ty: &CType) -> Option<IntegerType>
    ensures { result ≡ integer_of (type_view ty.now) }
{
    match ty {
        CType::Int { bytes, signed } => IntegerType::from_parts(*bytes, *signed),
        CType::Void => None,
        CType::Pointer(_) => None,
        CType::Array(_, _) => None,
        CType::Struct(_) => None,
    }
}

/// The size in bytes of a type that objects have.
#[tactic(auto, unfolding(crate::specs::model::View::opens))]
pub fn size_of(structs: &[StructDef], ty: &CType) -> u64
    requires { IsTrue (is_object structs.now (type_view ty.now)) }
    ensures { result ≡ size_of structs.now (type_view ty.now) }
{
    match ty {
        CType::Void => 0,
        CType::Int { bytes, .. } => u64::from(*bytes),
        CType::Pointer(_) => 8,
        CType::Array(element, length) => size_of(structs, element) * *length,
        CType::Struct(number) => struct_size(structs, *number),
    }
}

/// The size in bytes of the struct with a number; 0 where there is none.
pub fn struct_size(structs: &[StructDef], number: u32) -> u64
    ensures { result ≡ struct_size (slice_get structs.now number) }
{
    match structs.get(number as usize) {
        Some(structure) => structure.size,
        None => 0,
    }
}

/// The alignment in bytes of a type.
#[tactic(auto, unfolding(crate::specs::model::View::opens))]
pub fn align_of(structs: &[StructDef], ty: &CType) -> u64
    ensures { result ≡ align_of structs.now (type_view ty.now) }
{
    match ty {
        CType::Void => 1,
        CType::Int { bytes, .. } => u64::from(*bytes),
        CType::Pointer(_) => 8,
        CType::Array(element, _) => align_of(structs, element),
        CType::Struct(number) => struct_align(structs, *number),
    }
}

fn struct_align(structs: &[StructDef], number: u32) -> u64
    ensures { result ≡ struct_align (slice_get structs.now number) }
{
    match structs.get(number as usize) {
        Some(structure) => structure.align,
        None => 1,
    }
}

/// The place of a member in the struct with a number, in bytes; 0 where there is no such member.
pub fn offset_of(structs: &[StructDef], number: u32, member: u32) -> u64
    ensures { result ≡ offset_of structs.now number member }
{
    match structs.get(number as usize) {
        Some(structure) => match structure.members.as_slice().get(member as usize) {
            Some(member) => member.offset,
            None => 0,
        },
        None => 0,
    }
}
