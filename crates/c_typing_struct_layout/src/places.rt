//! Places at multiples of an alignment.

ghost use Rattle.std.specs.Prelude.{◌≡◌, ◌≤◌, ◌+◌, IsTrue};
ghost use Rattle.c_typed_tree.specs.Layout.{aligned_up, is_object};
ghost use Rattle.c_typed_tree.specs.View.{type_view};
ghost use Rattle.c_typing_struct_layout.specs.model.Spans as spec;

use crate::fields::Field;
use c_typed_tree::StructDef;
use c_typed_tree::layout::{align_of, size_of};
use mem_objects::MOST_DATA;

/// Where a member begins and where it ends.
#[derive(Clone, Copy, Debug, PartialEq, Eq)]
pub(crate) struct Span {
    pub from: u64,
    pub to: u64,
}

/// The next multiple of an alignment, from a place on.
#[tactic(auto, using(crate::proofs::Rounding::rounded_down))]
pub(crate) fn align_up(align: u64, place: u64) -> u128
    ensures value { result ≡ aligned_up align place }
    ensures most { result ≤ place + align }
{
    if align == 0 {
        return u128::from(place);
    }
    let unit = u128::from(align);
    (u128::from(place) + (unit - 1)) / unit * unit
}

/// Where a member lies behind the end of the one before; `None` where that is past the data.
pub(crate) fn span_of(structs: &[StructDef], end: u64, field: &Field) -> Option<Span>
    requires { IsTrue (is_object structs.now (type_view field.now.ty)) }
    ensures { result ≡ spec.span structs.now end field.now }
{
    let from = align_up(align_of(structs, &field.ty), end);
    let to = from + u128::from(size_of(structs, &field.ty));
    if to <= u128::from(MOST_DATA) {
        return Some(Span {
            from: from as u64,
            to: to as u64,
        });
    }
    None
}
