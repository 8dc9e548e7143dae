//! Where the objects lie.

ghost use Rattle.std.specs.Prelude.{◌≡◌, ◌+◌, ◌++◌, OnOk, IfOk, map};
ghost use Rattle.mem_objects.specs.Layout.{place_after, ObjectsLieFrom};
ghost use Rattle.mem_objects.specs.declared.DataCell.TheVariants.{Byte};
ghost use Rattle.c_typed_tree.specs.Layout as layout;
ghost use Rattle.c_typed_tree.specs.View.{type_view};
ghost use Rattle.c_typing_globals.specs.Globals as spec;

use crate::objects::UnitObject;
use bk_containers::{Name, Seq};
use c_typed_tree::layout::{align_of, size_of};
use c_typed_tree::{CType, StructDef};
use c_typing_rules::types::is_object;
use mem_objects::{DataCell, DataObject, next_place};
use std::alloc::{AllocError, Global};

/// Objects that are laid out, and where the last one ends.
#[derive(Drop)]
pub struct GlobalsSoFar {
    pub globals: Seq<DataObject>,
    /// In bytes from the start of the data.
    pub end: u64,
}

/// The size of an object in bytes. That of a type which no object has is refused as want of memory.
fn object_size(structs: &[StructDef], ty: &CType) -> Result<u64, AllocError>
    ensures { IfOk result (λ n. n ≡ layout.size_of structs.now (type_view ty.now)) }
{
    if is_object(structs, ty) {
        return Ok(size_of(structs, ty));
    }
    Err(AllocError)
}

fn object_align(structs: &[StructDef], ty: &CType) -> Result<u32, AllocError>
    ensures { IfOk result (λ n. n ≡ layout.align_of structs.now (type_view ty.now)) }
{
    match u32::try_from(align_of(structs, ty)) {
        Ok(align) => Ok(align),
        Err(_) => Err(AllocError),
    }
}

/// The place behind an end, which has a number of 64 bits.
fn place_behind(end: u64) -> Result<u64, AllocError>
    ensures { IfOk result (λ place. place ≡ place_after end) }
{
    if end < u64::MAX - 8 {
        return Ok(next_place(end));
    }
    Err(AllocError)
}

fn end_behind(place: u64, size: u64) -> Result<u64, AllocError>
    ensures { IfOk result (λ end. end ≡ place + size) }
{
    match place.checked_add(size) {
        None => Err(AllocError),
        Some(end) => Ok(end),
    }
}

fn add_global(so_far: &mut GlobalsSoFar, global: DataObject) -> Result<(), AllocError>
    ensures { OnOk result (so_far.new ≡ spec.with_global global so_far.old) }
{
    let end = end_behind(global.offset, global.size)?;
    so_far.globals.push(global)?;
    so_far.end = end;
    Ok(())
}

fn add_object(
    structs: &[StructDef],
    so_far: &mut GlobalsSoFar,
    object: UnitObject,
) -> Result<(), AllocError>
    ensures { OnOk result
        (so_far.new ≡ spec.with_global (spec.global_after structs.now so_far.old.end object) so_far.old) }
{
    let UnitObject { name, ty, cells } = object;
    let global = DataObject {
        name,
        size: object_size(structs, &ty)?,
        align: object_align(structs, &ty)?,
        offset: place_behind(so_far.end)?,
        writable: true,
        cells,
    };
    add_global(so_far, global)
}

fn add_objects(
    structs: &[StructDef],
    so_far: &mut GlobalsSoFar,
    objects: Seq<UnitObject>,
) -> Result<(), AllocError>
    ensures { OnOk result (so_far.new ≡ spec.with_objects structs.now objects so_far.old) }
{
    let mut rest = Seq::into_vec(objects).into_iter();
    while let Some(object) = rest.next() {
        add_object(structs, so_far, object)?;
    }
    Ok(())
}

fn text_cells(alloc: Global, text: &[u8]) -> Result<Seq<DataCell>, AllocError>
    ensures { IfOk result (λ cells. cells ≡ map Byte text.now) }
{
    let mut cells = Seq::new(alloc);
    for byte in text {
        cells.push(DataCell::Byte(*byte))?;
    }
    Ok(cells)
}

fn add_text(alloc: Global, so_far: &mut GlobalsSoFar, text: &[u8]) -> Result<(), AllocError>
    ensures { OnOk result (so_far.new ≡ spec.with_global (spec.text_at so_far.old.end text.now) so_far.old) }
{
    let global = DataObject {
        name: Name::from_slice(alloc, b"".as_slice())?,
        size: text.len() as u64,
        align: 1,
        offset: place_behind(so_far.end)?,
        writable: false,
        cells: text_cells(alloc, text)?,
    };
    add_global(so_far, global)
}

fn add_texts(alloc: Global, so_far: &mut GlobalsSoFar, texts: &[Seq<u8>]) -> Result<(), AllocError>
    ensures { OnOk result (so_far.new ≡ spec.with_texts texts.now so_far.old) }
{
    for text in texts {
        add_text(alloc, so_far, text.as_slice())?;
    }
    Ok(())
}

/// The objects of static storage of a unit: those with names, and then the string literals, each with its zero. It
/// fails only where memory is short, as which counts a type that no object has.
#[tactic(auto, using(crate::proofs::Places::globals_lie))]
pub fn lay_out_globals(
    alloc: Global,
    structs: &[StructDef],
    objects: Seq<UnitObject>,
    texts: &[Seq<u8>],
) -> Result<Seq<DataObject>, AllocError>
    ensures exact { IfOk result (λ globals. globals ≡ spec.globals structs.now objects texts.now) }
    ensures layout { IfOk result (λ globals. ObjectsLieFrom 0 globals) }
{
    let mut so_far = GlobalsSoFar {
        globals: Seq::new(alloc),
        end: 0,
    };
    add_objects(structs, &mut so_far, objects)?;
    add_texts(alloc, &mut so_far, texts)?;
    Ok(so_far.globals)
}
