//! The objects of a function: its memory locals, in order.

ghost use Rattle.std.specs.Prelude.{◌≡◌, [], ◌∷◌, ◌++◌, All, OnOk, IfOk};
ghost use Rattle.lowering_code.specs.Functions.{object_for, objects_of};
ghost use Rattle.lowering_functions.specs.Scopes.{LocalHasSize};

use bk_containers::Seq;
use c_typed_tree::layout::{align_of, size_of};
use c_typed_tree::{Local, StructDef};
use pass_core::function::MemoryLocal;
use std::alloc::{AllocError, Global};

fn object(structs: &[StructDef], local: &Local) -> MemoryLocal
    requires { LocalHasSize structs.now local.now }
    ensures { result ≡ object_for structs.now local.now }
{
    MemoryLocal {
        size: size_of(structs, &local.ty),
        align: align_of(structs, &local.ty) as u32,
    }
}

fn add(
    objects: &mut Seq<MemoryLocal>,
    structs: &[StructDef],
    local: &Local,
) -> Result<(), AllocError>
    requires { LocalHasSize structs.now local.now }
    ensures { OnOk result (objects.new ≡ objects.old ++ objects_of structs.now (local.now ∷ [])) }
{
    if !local.in_memory {
        return Ok(());
    }
    objects.push(object(structs, local))
}

/// The objects of the locals. It fails only where memory is short.
#[tactic(auto, using(crate::proofs::Objects::objects_more))]
pub fn objects(
    alloc: Global,
    structs: &[StructDef],
    locals: &[Local],
) -> Result<Seq<MemoryLocal>, AllocError>
    requires { All (LocalHasSize structs.now) locals.now }
    ensures { IfOk result (λ o. o ≡ objects_of structs.now locals.now) }
{
    let mut objects = Seq::new(alloc);
    for local in locals {
        add(&mut objects, structs, local)?;
    }
    Ok(objects)
}
