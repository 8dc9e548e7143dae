//! Equal units.

ghost use Rattle.std.specs.Prelude.{◌≡◌, IfOk};
ghost use Rattle.c_typed_tree.specs.Lawful.{IsLawfulUnit};

use crate::copy_statements::copy_stmt;
use crate::{Local, Member, StructDef, TypedFn, TypedUnit};
use bk_containers::Seq;
use mem_objects::copy_objects;
use std::alloc::{AllocError, Global};

fn copy_member(alloc: Global, member: &Member) -> Result<Member, AllocError>
    ensures { IfOk result (λ r. r ≡ member.now) }
{
    let name = member.name.copy()?;
    let ty = member.ty.copy(alloc)?;
    Ok(Member {
        name,
        ty,
        offset: member.offset,
    })
}

fn copy_members(alloc: Global, list: &Seq<Member>) -> Result<Seq<Member>, AllocError>
    ensures { IfOk result (λ r. r ≡ list.now) }
{
    let mut copies = Seq::new(alloc);
    for member in list.as_slice() {
        copies.push(copy_member(alloc, member)?)?;
    }
    Ok(copies)
}

fn copy_struct(alloc: Global, structure: &StructDef) -> Result<StructDef, AllocError>
    ensures { IfOk result (λ r. r ≡ structure.now) }
{
    let tag = structure.tag.copy()?;
    let members = copy_members(alloc, &structure.members)?;
    Ok(StructDef {
        tag,
        complete: structure.complete,
        members,
        size: structure.size,
        align: structure.align,
        depth: structure.depth,
    })
}

fn copy_structs(alloc: Global, list: &Seq<StructDef>) -> Result<Seq<StructDef>, AllocError>
    ensures { IfOk result (λ r. r ≡ list.now) }
{
    let mut copies = Seq::new(alloc);
    for structure in list.as_slice() {
        copies.push(copy_struct(alloc, structure)?)?;
    }
    Ok(copies)
}

fn copy_variable(alloc: Global, local: &Local) -> Result<Local, AllocError>
    ensures { IfOk result (λ r. r ≡ local.now) }
{
    let ty = local.ty.copy(alloc)?;
    Ok(Local {
        ty,
        in_memory: local.in_memory,
    })
}

fn copy_variables(alloc: Global, list: &Seq<Local>) -> Result<Seq<Local>, AllocError>
    ensures { IfOk result (λ r. r ≡ list.now) }
{
    let mut copies = Seq::new(alloc);
    for local in list.as_slice() {
        copies.push(copy_variable(alloc, local)?)?;
    }
    Ok(copies)
}

fn copy_function(alloc: Global, function: &TypedFn) -> Result<TypedFn, AllocError>
    ensures { IfOk result (λ r. r ≡ function.now) }
{
    let name = function.name.copy()?;
    let returned = function.result.copy(alloc)?;
    let locals = copy_variables(alloc, &function.locals)?;
    let body = copy_stmt(alloc, &function.body)?;
    Ok(TypedFn {
        name,
        result: returned,
        params: function.params,
        locals,
        body,
    })
}

fn copy_functions(alloc: Global, list: &Seq<TypedFn>) -> Result<Seq<TypedFn>, AllocError>
    ensures { IfOk result (λ r. r ≡ list.now) }
{
    let mut copies = Seq::new(alloc);
    for function in list.as_slice() {
        copies.push(copy_function(alloc, function)?)?;
    }
    Ok(copies)
}

/// An equal unit, lawful where the given one is. It fails only where memory is short.
#[tactic(auto, using(crate::proofs::Copies::still_lawful))]
pub fn copy_unit(alloc: Global, unit: &TypedUnit) -> Result<TypedUnit, AllocError>
    ensures equal { IfOk result (λ r. r ≡ unit.now) }
    ensures lawful { IfOk result (λ r. IsLawfulUnit unit.now → IsLawfulUnit r) }
{
    let structs = copy_structs(alloc, &unit.structs)?;
    let globals = copy_objects(alloc, unit.globals.as_slice())?;
    let functions = copy_functions(alloc, &unit.functions)?;
    Ok(TypedUnit {
        structs,
        globals,
        functions,
    })
}
