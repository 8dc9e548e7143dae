//! The walk over the bodies of a specifier.

ghost use Rattle.std.specs.Prelude.{◌≡◌, OnOk};
ghost use Rattle.c_typing_state.specs.Checks.{Finds};
ghost use Rattle.c_typing_struct_bodies.specs.Bodies as spec;
ghost use Rattle.c_typing_struct_bodies.specs.model.Parts as model;

use crate::enums::constants;
use crate::members::{Members, declare_member, no_members};
use crate::structs::{add_body, begin_enum, begin_struct, end_struct};
use bk_containers::Name;
use c_tree::{Constant, Declaration, TypeNode};
use c_typing_expressions::derive;
use c_typing_judgements::leaves::leaf;
use c_typing_rules::c_typing_declared_types::DeclaredType;
use c_typing_scopes::NameTable;
use c_typing_state::{Env, Notes};
use std::alloc::{AllocError, Global};

/// The body of an enum.
fn enum_body<'a>(
    alloc: Global,
    list: &'a [Constant],
    defined: &mut NameTable<'a, ()>,
    env: &mut Env<'a>,
    notes: &mut Notes<'a>,
    at: u32,
    tag: &'a Option<Name>,
) -> Result<(), AllocError>
    ensures { OnOk result ((defined.new, (env.new, notes.new))
        ≡ model.enum_body at tag.now list.now (defined.old, (env.old, notes.old))) }
{
    begin_enum(defined, notes, at, tag)?;
    add_body(defined, tag)?;
    constants(alloc, list, env, notes)
}

/// Enters the bodies of a specifier, whatever declarator stands around it. `defined` has the tags that have a body.
#[cycle(body)]
#[tactic(auto, using(crate::proofs::Rows::rows), unfolding(crate::specs::model::Opens::opens))]
pub fn bodies<'a>(
    alloc: Global,
    node: &'a TypeNode,
    defined: &mut NameTable<'a, ()>,
    env: &mut Env<'a>,
    notes: &mut Notes<'a>,
) -> Result<(), AllocError>
    ensures { OnOk result ((defined.new, (env.new, notes.new))
        ≡ spec.bodies node.now (defined.old, (env.old, notes.old))) }
{
    match node {
        TypeNode::Basic(_) => Ok(()),
        TypeNode::Named(_) => Ok(()),
        TypeNode::Enum { at, tag, constants } => match constants {
            None => Ok(()),
            Some(list) => enum_body(alloc, list.as_slice(), defined, env, notes, *at, tag),
        },
        TypeNode::Struct { at, tag, members } => match members {
            None => Ok(()),
            Some(list) => struct_body(alloc, list.as_slice(), defined, env, notes, *at, tag),
        },
        TypeNode::Pointer(target) => bodies(alloc, target, defined, env, notes),
        TypeNode::Array { element, .. } => bodies(alloc, element, defined, env, notes),
        TypeNode::Takes { result, .. } => bodies(alloc, result, defined, env, notes),
    }
}

/// The body of a struct.
#[cycle(body)]
fn struct_body<'a>(
    alloc: Global,
    list: &'a [Declaration],
    defined: &mut NameTable<'a, ()>,
    env: &mut Env<'a>,
    notes: &mut Notes<'a>,
    at: u32,
    tag: &'a Option<Name>,
) -> Result<(), AllocError>
    ensures { OnOk result ((defined.new, (env.new, notes.new))
        ≡ model.struct_body at tag.now list.now (defined.old, (env.old, notes.old))) }
{
    let number = begin_struct(alloc, defined, notes, at, tag)?;
    add_body(defined, tag)?;
    let mut found = no_members(alloc);
    members(alloc, list, defined, env, notes, &mut found)?;
    end_struct(alloc, notes, at, tag, number, &mut found)
}

/// Enters members in their order.
#[cycle(body)]
fn members<'a>(
    alloc: Global,
    list: &'a [Declaration],
    defined: &mut NameTable<'a, ()>,
    env: &mut Env<'a>,
    notes: &mut Notes<'a>,
    found: &mut Members<'a>,
) -> Result<(), AllocError>
    ensures { OnOk result ((found.new, (defined.new, (env.new, notes.new)))
        ≡ model.members list.now (found.old, (defined.old, (env.old, notes.old)))) }
{
    for d in list {
        member(alloc, d, defined, env, notes, found)?;
    }
    Ok(())
}

/// Enters a member.
#[cycle(body)]
fn member<'a>(
    alloc: Global,
    d: &'a Declaration,
    defined: &mut NameTable<'a, ()>,
    env: &mut Env<'a>,
    notes: &mut Notes<'a>,
    found: &mut Members<'a>,
) -> Result<(), AllocError>
    ensures { OnOk result ((found.new, (defined.new, (env.new, notes.new)))
        ≡ model.one_member d.now (found.old, (defined.old, (env.old, notes.old)))) }
{
    let ty = declared_type(alloc, &d.ty, defined, env, notes, d.at)?;
    declare_member(alloc, found, notes, d.at, d.name.as_slice(), ty)
}

/// The type of a declaration at file scope or of a member, at its place, behind the bodies of its specifier.
#[cycle(body)]
pub fn declared_type<'a>(
    alloc: Global,
    node: &'a TypeNode,
    defined: &mut NameTable<'a, ()>,
    env: &mut Env<'a>,
    notes: &mut Notes<'a>,
    at: u32,
) -> Result<Option<DeclaredType>, AllocError>
    ensures { Finds (spec.declared_type at node.now (defined.old, (env.old, notes.old)))
        result (defined.new, (env.new, notes.new)) }
{
    bodies(alloc, node, defined, env, notes)?;
    let of = leaf(alloc, node, env, notes, at)?;
    derive(alloc, node, env, notes, at, of)
}
