//! Copies of objects of static storage.

ghost use Rattle.std.specs.Prelude.{◌≡◌, IfOk};

use crate::{DataCell, DataObject};
use bk_containers::Seq;
use std::alloc::{AllocError, Global};

/// Equal cells. It fails only where memory is short.
fn copy_cells(alloc: Global, cells: &[DataCell]) -> Result<Seq<DataCell>, AllocError>
    ensures { IfOk result (λ copies. copies ≡ cells.now) }
{
    Ok(Seq::from_vec(Vec::from_slice(alloc, cells)?))
}

/// An equal object. It fails only where memory is short.
fn copy_object(alloc: Global, object: &DataObject) -> Result<DataObject, AllocError>
    ensures { IfOk result (λ copy. copy ≡ object.now) }
{
    let name = object.name.copy()?;
    let cells = copy_cells(alloc, object.cells.as_slice())?;
    Ok(DataObject {
        name,
        size: object.size,
        align: object.align,
        offset: object.offset,
        writable: object.writable,
        cells,
    })
}

/// Equal objects, in order. It fails only where memory is short.
pub fn copy_objects(alloc: Global, objects: &[DataObject]) -> Result<Seq<DataObject>, AllocError>
    ensures { IfOk result (λ copies. copies ≡ objects.now) }
{
    let mut copies = Seq::new(alloc);
    for object in objects {
        copies.push(copy_object(alloc, object)?)?;
    }
    Ok(copies)
}
