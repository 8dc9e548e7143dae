//! Sizes and places as words. No call takes memory.

ghost use Rattle.std.specs.Prelude.{◌≡◌, ◌-◌, ◌^◌, min};
ghost use Rattle.c_typed_tree.specs.View.{type_view};
ghost use Rattle.c_typed_tree.specs.Layout.{size_of};
ghost use Rattle.lowering_code.specs.Expressions.{cap_offset, stride, member_plus};

use c_typed_tree::layout::{offset_of, struct_size};
use c_typed_tree::{CType, StructDef};

/// The size of a type, or the greatest number where it is greater.
#[tactic(auto, unfolding(c_typed_tree::specs::model::View::opens))]
fn size_or_greatest(structs: &[StructDef], ty: &CType) -> u64
    ensures { result ≡ min (size_of structs.now (type_view ty.now)) (2 ^ 64 - 1) }
{
    match ty {
        CType::Void => 0,
        CType::Int { bytes, .. } => u64::from(*bytes),
        CType::Pointer(_) => 8,
        CType::Array(element, length) => size_or_greatest(structs, element).saturating_mul(*length),
        CType::Struct(number) => struct_size(structs, *number),
    }
}

fn cap_offset(number: u64) -> u64
    ensures { result ≡ cap_offset number }
{
    number.min(i64::MAX as u64)
}

/// By how many bytes an element stands behind the one before it.
pub fn stride(structs: &[StructDef], element: &CType) -> u64
    ensures { result ≡ stride structs.now (type_view element.now) }
{
    cap_offset(size_or_greatest(structs, element))
}

/// The bytes to a member of a struct type, and so many more.
#[tactic(auto, unfolding(c_typed_tree::specs::model::View::opens))]
pub fn member_plus(structs: &[StructDef], ty: &CType, member: u32, plus: u64) -> u64
    ensures { result ≡ member_plus structs.now (type_view ty.now) member plus }
{
    match ty {
        CType::Struct(number) => cap_offset(offset_of(structs, *number, member).saturating_add(
            plus,
        )),
        CType::Void => cap_offset(plus),
        CType::Int { .. } => cap_offset(plus),
        CType::Pointer(_) => cap_offset(plus),
        CType::Array(_, _) => cap_offset(plus),
    }
}
