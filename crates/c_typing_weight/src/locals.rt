//! The bytes that locals take in memory.

ghost use Rattle.std.specs.Prelude.{◌≡◌, ◌-◌, ◌^◌, min};
ghost use Rattle.c_typed_tree.specs.View.{type_view};
ghost use Rattle.c_typed_tree.specs.Layout.{size_of, aligned_up};
ghost use Rattle.c_typed_tree.specs.Rooms.{local_bytes, locals_bytes};

use c_typed_tree::layout::struct_size;
use c_typed_tree::{CType, Local, StructDef, TypedFn};

/// The size of a type, whether objects have it or not.
#[tactic(auto, unfolding(c_typed_tree::specs::model::View::opens))]
fn size_of(structs: &[StructDef], ty: &CType) -> u64
    ensures { result ≡ min (size_of structs.now (type_view ty.now)) (2 ^ 64 - 1) }
{
    match ty {
        CType::Void => 0,
        CType::Int { bytes, .. } => u64::from(*bytes),
        CType::Pointer(_) => 8,
        CType::Array(element, length) => size_of(structs, element).saturating_mul(*length),
        CType::Struct(number) => struct_size(structs, *number),
    }
}

/// The next multiple of 8.
fn aligned_up(size: u64) -> u64
    ensures { result ≡ min (aligned_up 8 size) (2 ^ 64 - 1) }
{
    match size.checked_add(7) {
        Some(end) => end / 8 * 8,
        None => u64::MAX,
    }
}

/// The bytes that a local takes in memory, rounded up to 8.
fn local_bytes(local: &Local, structs: &[StructDef]) -> u64
    ensures { result ≡ min (local_bytes structs.now local.now) (2 ^ 64 - 1) }
{
    if local.in_memory {
        aligned_up(size_of(structs, &local.ty))
    } else {
        0
    }
}

/// The bytes that the locals of a function take in memory.
#[tactic(auto, using(crate::proofs::Weights::bytes_end))]
pub fn locals_bytes(function: &TypedFn, structs: &[StructDef]) -> u64
    ensures { result ≡ min (locals_bytes structs.now function.now) (2 ^ 64 - 1) }
{
    let mut total = 0u64;
    for local in function.locals.as_slice() {
        total = total.saturating_add(local_bytes(local, structs));
    }
    total
}
