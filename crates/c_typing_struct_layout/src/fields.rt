//! Structs from their members' names and types.

ghost use Rattle.std.specs.Prelude.{◌≡◌, ◌≤◌, All, IfOk, IfSome, IsTrue, slice_get};
ghost use Rattle.mem_objects.specs.declared.TheConstants.{MOST_DATA};
ghost use Rattle.c_typed_tree.specs.Layout as layout;
ghost use Rattle.c_typed_tree.specs.Typing.{depth_of, depth_behind, struct_depth, most_depth};
ghost use Rattle.c_typed_tree.specs.View.{type_view};
ghost use Rattle.c_typing_struct_layout.specs.StructLayout as spec;
ghost use Rattle.c_typing_struct_layout.specs.model.Spans as model;

use crate::places::{align_up, span_of};
use bk_containers::{Name, Seq};
use c_typed_tree::layout::align_of;
use c_typed_tree::{CType, Member, StructDef};
use mem_objects::MOST_DATA;
use std::alloc::{AllocError, Global};

/// A member before it has its place.
#[derive(Drop)]
pub struct Field {
    pub name: Name,
    pub ty: CType,
}

/// Members in their places, and the end of the last one.
#[derive(Drop)]
pub(crate) struct Placement {
    pub members: Seq<Member>,
    pub end: u64,
}

fn member(alloc: Global, field: &Field, offset: u64) -> Result<Member, AllocError>
    ensures { IfOk result (λ r. r ≡ record { name = field.now.name; ty = field.now.ty; offset = offset }) }
{
    Ok(Member {
        name: field.name.copy()?,
        ty: field.ty.copy(alloc)?,
        offset,
    })
}

/// Members in their places; `None` where the last one ends past the data.
fn place_members(
    alloc: Global,
    structs: &[StructDef],
    fields: &[Field],
) -> Result<Option<Placement>, AllocError>
    requires { All (λ f. IsTrue (layout.is_object structs.now (type_view f.ty))) fields.now }
    ensures placement_of_fields { IfOk result (λ r. r ≡ model.placement_of_fields structs.now fields.now) }
    ensures within { IfOk result (λ r. IfSome r (λ p. p.end ≤ MOST_DATA)) }
{
    let mut members = Seq::new(alloc);
    let mut end = 0;
    for field in fields {
        match span_of(structs, end, field) {
            None => return Ok(None),
            Some(found) => {
                members.push(member(alloc, field, found.from)?)?;
                end = found.to;
            }
        }
    }
    Ok(Some(Placement { members, end }))
}

/// The greatest alignment of members.
#[tactic(auto, using(crate::proofs::Greatest::align_start, crate::proofs::Greatest::align_end))]
fn greatest_align(structs: &[StructDef], members: &[Member]) -> u64
    ensures { result ≡ layout.greatest_align structs.now members.now }
{
    let mut most = 1;
    for member in members {
        most = align_of(structs, &member.ty).max(most);
    }
    most
}

/// The depth of a type behind a pointer.
#[tactic(auto, unfolding(c_typed_tree::specs::model::View::opens))]
fn behind(ty: &CType) -> u64
    requires { depth_behind (type_view ty.now) ≤ most_depth }
    ensures { result ≡ depth_behind (type_view ty.now) }
{
    match ty {
        CType::Void => 1,
        CType::Int { .. } => 1,
        CType::Pointer(target) => 1 + behind(target),
        CType::Array(element, _) => 1 + behind(element),
        CType::Struct(_) => 1,
    }
}

fn depth_of_struct(structs: &[StructDef], number: u32) -> u64
    ensures { result ≡ struct_depth (slice_get structs.now number) }
{
    match structs.get(number as usize) {
        Some(structure) => structure.depth.max(1),
        None => 1,
    }
}

/// The depth of a type.
#[tactic(auto, unfolding(c_typed_tree::specs::model::View::opens))]
fn depth(structs: &[StructDef], ty: &CType) -> u64
    requires { depth_of structs.now (type_view ty.now) ≤ most_depth }
    ensures { result ≡ depth_of structs.now (type_view ty.now) }
{
    match ty {
        CType::Void => 1,
        CType::Int { .. } => 1,
        CType::Pointer(target) => 1 + behind(target),
        CType::Array(element, _) => 1 + depth(structs, element),
        CType::Struct(number) => depth_of_struct(structs, *number),
    }
}

/// The depth of the deepest member.
fn deepest(structs: &[StructDef], fields: &[Field]) -> u64
    requires { All (λ f. depth_of structs.now (type_view f.ty) ≤ most_depth) fields.now }
    ensures value { result ≡ spec.deepest_member structs.now fields.now }
    ensures bound { result ≤ most_depth }
{
    let mut most = 0;
    for field in fields {
        most = depth(structs, &field.ty).max(most);
    }
    most
}

/// A struct whose members are placed.
fn struct_of(
    structs: &[StructDef],
    tag: Name,
    members: Seq<Member>,
    end: u64,
    depth: u64,
) -> Option<StructDef>
    requires end { end ≤ MOST_DATA }
    requires depth { depth ≤ most_depth }
    ensures { result ≡ spec.struct_within structs.now tag members depth (spec.whole_size structs.now members end) }
{
    let align = greatest_align(structs, members.as_slice());
    let size = align_up(align, end);
    if size <= u128::from(MOST_DATA) {
        return Some(StructDef {
            tag,
            complete: true,
            members,
            size: size as u64,
            align,
            depth: 1 + depth,
        });
    }
    None
}

/// The struct of these members; `None` where it is larger than the data may be. Objects have to have the types of its
/// members, and these are no deeper than a type may be.
pub fn lay_out(
    alloc: Global,
    structs: &[StructDef],
    tag: Name,
    fields: &[Field],
) -> Result<Option<StructDef>, AllocError>
    requires objects { All (λ f. IsTrue (layout.is_object structs.now (type_view f.ty))) fields.now }
    requires shallow { All (λ f. depth_of structs.now (type_view f.ty) ≤ most_depth) fields.now }
    ensures { IfOk result (λ r. r ≡ spec.struct_of structs.now tag fields.now) }
{
    match place_members(alloc, structs, fields)? {
        None => Ok(None),
        Some(Placement { members, end }) => {
            let depth = deepest(structs, fields);
            Ok(struct_of(structs, tag, members, end, depth))
        }
    }
}
