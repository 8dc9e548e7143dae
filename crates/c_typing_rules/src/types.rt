//! What is asked of types (C99 6.2.5). No call takes memory.

ghost use Rattle.std.specs.Prelude.{◌≡◌, ◌*◌, ◌&&◌, nat_le, slice_get};
ghost use Rattle.c_typed_tree.specs.View.{type_view};
ghost use Rattle.c_typed_tree.specs.Layout as layout;
ghost use Rattle.mem_objects.specs.declared.TheConstants.{MOST_DATA};
ghost use Rattle.c_typed_tree.specs.Constants as constants;
ghost use Rattle.c_typed_tree.specs.Typing as typing;
ghost use Rattle.c_typing_rules.specs.Types as spec;
ghost use Rattle.c_typing_rules.specs.Values as values;

use bk_arithmetic::integer_type::IntegerType;
use c_typed_tree::layout::{integer_of, size_of};
use c_typed_tree::{CType, StructDef};
use mem_objects::MOST_DATA;

/// The type of an integer type's values.
pub fn integer_type(t: IntegerType) -> CType
    ensures { result ≡ values.type_of_integer t }
{
    CType::Int {
        bytes: t.bytes(),
        signed: t.is_signed(),
    }
}

/// Whether two types are one.
#[tactic(auto, unfolding(c_typed_tree::specs::model::View::opens))]
pub fn is_same(a: &CType, b: &CType) -> bool
    ensures { result ≡ values.is_same a.now b.now }
{
    match a {
        CType::Void => match b {
            CType::Void => true,
            CType::Int { .. } => false,
            CType::Pointer(_) => false,
            CType::Array(_, _) => false,
            CType::Struct(_) => false,
        },
        CType::Int { bytes, signed } => match b {
            CType::Void => false,
            CType::Int {
                bytes: size,
                signed: sign,
            } => *bytes == *size && *signed == *sign,
            CType::Pointer(_) => false,
            CType::Array(_, _) => false,
            CType::Struct(_) => false,
        },
        CType::Pointer(target) => match b {
            CType::Void => false,
            CType::Int { .. } => false,
            CType::Pointer(other) => is_same(target, other),
            CType::Array(_, _) => false,
            CType::Struct(_) => false,
        },
        CType::Array(element, length) => match b {
            CType::Void => false,
            CType::Int { .. } => false,
            CType::Pointer(_) => false,
            CType::Array(other, size) => is_same(element, other) && *length == *size,
            CType::Struct(_) => false,
        },
        CType::Struct(number) => match b {
            CType::Void => false,
            CType::Int { .. } => false,
            CType::Pointer(_) => false,
            CType::Array(_, _) => false,
            CType::Struct(other) => *number == *other,
        },
    }
}

/// Whether it is `void`.
#[tactic(auto, unfolding(c_typed_tree::specs::model::View::opens))]
pub fn is_void(ty: &CType) -> bool
    ensures { result ≡ typing.is_void (type_view ty.now) }
{
    match ty {
        CType::Void => true,
        CType::Int { .. } => false,
        CType::Pointer(_) => false,
        CType::Array(_, _) => false,
        CType::Struct(_) => false,
    }
}

/// Whether it is the type of integers.
pub fn is_integer(ty: &CType) -> bool
    ensures { result ≡ constants.is_integer (type_view ty.now) }
{
    match integer_of(ty) {
        None => false,
        Some(_) => true,
    }
}

/// Whether it is the type of pointers.
#[tactic(auto, unfolding(c_typed_tree::specs::model::View::opens))]
pub fn is_pointer(ty: &CType) -> bool
    ensures { result ≡ typing.is_pointer (type_view ty.now) }
{
    match ty {
        CType::Void => false,
        CType::Int { .. } => false,
        CType::Pointer(_) => true,
        CType::Array(_, _) => false,
        CType::Struct(_) => false,
    }
}

/// Whether it is the type of integers or pointers.
pub fn is_scalar(ty: &CType) -> bool
    ensures { result ≡ typing.is_scalar (type_view ty.now) }
{
    is_integer(ty) || is_pointer(ty)
}

/// Whether it is `void *`.
#[tactic(auto, unfolding(c_typed_tree::specs::model::View::opens))]
pub fn is_pointer_to_void(ty: &CType) -> bool
    ensures { result ≡ typing.is_pointer_to_void (type_view ty.now) }
{
    match ty {
        CType::Void => false,
        CType::Int { .. } => false,
        CType::Pointer(target) => is_void(target),
        CType::Array(_, _) => false,
        CType::Struct(_) => false,
    }
}

/// Whether an array of so many elements of a size has an element at least, and fits into the data.
fn fits_data(size: u64, length: u64) -> bool
    ensures { result ≡ (nat_le 1 length && nat_le (size * length) MOST_DATA) }
{
    1 <= length && u128::from(size) * u128::from(length) <= u128::from(MOST_DATA)
}

fn is_complete(structs: &[StructDef], number: u32) -> bool
    ensures { result ≡ layout.is_complete (slice_get structs.now number) }
{
    match structs.get(number as usize) {
        Some(structure) => structure.complete,
        None => false,
    }
}

/// Whether objects have the type: it is complete, and no larger than the data may be.
#[tactic(auto, unfolding(c_typed_tree::specs::model::View::opens))]
pub fn is_object(structs: &[StructDef], ty: &CType) -> bool
    ensures { result ≡ layout.is_object structs.now (type_view ty.now) }
{
    match ty {
        CType::Void => false,
        CType::Int { .. } => true,
        CType::Pointer(_) => true,
        CType::Array(element, length) => {
            if !is_object(structs, element) {
                return false;
            }
            fits_data(size_of(structs, element), *length)
        }
        CType::Struct(number) => is_complete(structs, *number),
    }
}

/// Whether it is the type of pointers to objects.
#[tactic(auto, unfolding(c_typed_tree::specs::model::View::opens))]
pub fn points_to_object(structs: &[StructDef], ty: &CType) -> bool
    ensures { result ≡ typing.points_to_object structs.now (type_view ty.now) }
{
    match ty {
        CType::Void => false,
        CType::Int { .. } => false,
        CType::Pointer(target) => is_object(structs, target),
        CType::Array(_, _) => false,
        CType::Struct(_) => false,
    }
}

/// Whether it is the type of structs.
#[tactic(auto, unfolding(c_typed_tree::specs::model::View::opens))]
pub fn is_struct(ty: &CType) -> bool
    ensures { result ≡ typing.is_struct (type_view ty.now) }
{
    match ty {
        CType::Void => false,
        CType::Int { .. } => false,
        CType::Pointer(_) => false,
        CType::Array(_, _) => false,
        CType::Struct(_) => true,
    }
}

#[tactic(auto, unfolding(c_typed_tree::specs::model::View::opens))]
fn is_complete_struct(structs: &[StructDef], ty: &CType) -> bool
    ensures { result ≡ spec.is_complete_struct structs.now (type_view ty.now) }
{
    match ty {
        CType::Void => false,
        CType::Int { .. } => false,
        CType::Pointer(_) => false,
        CType::Array(_, _) => false,
        CType::Struct(number) => is_complete(structs, *number),
    }
}

/// Whether it is the type of pointers to complete structs.
#[tactic(auto, unfolding(c_typed_tree::specs::model::View::opens))]
pub fn points_to_struct(structs: &[StructDef], ty: &CType) -> bool
    ensures { result ≡ spec.points_to_struct structs.now (type_view ty.now) }
{
    match ty {
        CType::Void => false,
        CType::Int { .. } => false,
        CType::Pointer(target) => is_complete_struct(structs, target),
        CType::Array(_, _) => false,
        CType::Struct(_) => false,
    }
}
