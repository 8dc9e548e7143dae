//! How deep types are.

ghost use Rattle.std.specs.Prelude.{◌≡◌, nat_le, slice_get};
ghost use Rattle.std.specs.List.{list_all};
ghost use Rattle.c_typed_tree.specs.Typing.{depth_behind, struct_depth};
ghost use Rattle.c_typed_tree.specs.View.{type_view};
ghost use Rattle.c_typing_rules.specs.c_typing_declared_types.Depth as spec;

use crate::c_typing_declared_types::declared::DeclaredType;
use c_typed_tree::{CType, StructDef};

/// The greatest depth of a type that is declared.
pub const MOST_DEPTH: u64 = 256;

/// Whether a type that stands behind a pointer has at most a depth there.
#[tactic(auto, using(crate::proofs::CTypingDeclaredTypes::Deeper::deeper), unfolding(c_typed_tree::specs::model::View::opens))]
fn is_behind_at_most(most: u64, ty: &CType) -> bool
    ensures { result ≡ nat_le (depth_behind (type_view ty.now)) most }
{
    match ty {
        CType::Void => 1 <= most,
        CType::Int { .. } => 1 <= most,
        CType::Pointer(target) => {
            if most == 0 {
                return false;
            }
            is_behind_at_most(most - 1, target)
        }
        CType::Array(element, _) => {
            if most == 0 {
                return false;
            }
            is_behind_at_most(most - 1, element)
        }
        CType::Struct(_) => 1 <= most,
    }
}

fn is_struct_at_most(structs: &[StructDef], most: u64, number: u32) -> bool
    ensures { result ≡ nat_le (struct_depth (slice_get structs.now number)) most }
{
    match structs.get(number as usize) {
        Some(structure) => structure.depth.max(1) <= most,
        None => 1 <= most,
    }
}

/// Whether a type has at most a depth: 1 for what has no parts, for a struct that is not complete and for one behind a
/// pointer; else 1 more than the deepest part.
#[tactic(auto, using(crate::proofs::CTypingDeclaredTypes::Deeper::deeper), unfolding(c_typed_tree::specs::model::View::opens))]
pub fn is_deep_at_most(structs: &[StructDef], most: u64, ty: &CType) -> bool
    ensures { result ≡ spec.is_deep_at_most structs.now most ty.now }
{
    match ty {
        CType::Void => 1 <= most,
        CType::Int { .. } => 1 <= most,
        CType::Pointer(target) => {
            if most == 0 {
                return false;
            }
            is_behind_at_most(most - 1, target)
        }
        CType::Array(element, _) => {
            if most == 0 {
                return false;
            }
            is_deep_at_most(structs, most - 1, element)
        }
        CType::Struct(number) => is_struct_at_most(structs, most, *number),
    }
}

/// Whether each of some types has at most a depth.
fn are_deep_at_most(structs: &[StructDef], most: u64, types: &[CType]) -> bool
    ensures { result ≡ list_all (spec.is_deep_at_most structs.now most) types.now }
{
    types.iter().all(|ty| is_deep_at_most(structs, most, ty))
}

/// Whether a type may be declared: it is at most 256 deep.
pub fn is_declarable(structs: &[StructDef], ty: &DeclaredType) -> bool
    ensures { result ≡ spec.is_declarable structs.now ty.now }
{
    match ty {
        DeclaredType::Value(ty) => is_deep_at_most(structs, MOST_DEPTH, ty),
        DeclaredType::Unsized(element) => is_deep_at_most(structs, MOST_DEPTH - 1, element),
        DeclaredType::Function { result, parameters } => {
            if !is_deep_at_most(structs, MOST_DEPTH - 1, result) {
                return false;
            }
            are_deep_at_most(structs, MOST_DEPTH - 1, parameters.as_slice())
        }
    }
}
