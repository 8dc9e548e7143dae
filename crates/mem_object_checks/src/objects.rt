//! What is asked of objects of static storage.

ghost use Rattle.std.specs.Prelude.{◌≡◌, ℕ, ◌+◌, ◌*◌, ◌/◌, ◌<◌, ◌≤◌, ◌^◌, All, length, slice_get, Option, Some};
ghost use Rattle.std.specs.Bool.{OnTrue};
ghost use Rattle.mem_objects.specs.declared.DataCell.{DataCell};
ghost use Rattle.mem_objects.specs.declared.DataCell.TheVariants.{AddressPart};
ghost use Rattle.mem_objects.specs.Globals.{AreLawful, IsLawfulCell, IsLawfulObject, Reaches, StandsWhole};
ghost use Rattle.mem_objects.specs.Layout.{ObjectsLieFrom};

use mem_objects::{DataCell, DataObject, MOST_DATA, next_place};

/// Whether objects lie one behind the other, none of them past the end of the most data.
fn lie_in_order(globals: &[DataObject]) -> bool
    ensures { OnTrue result (ObjectsLieFrom 0 globals.now) }
{
    let mut end = 0;
    for object in globals {
        if end > MOST_DATA || object.size > MOST_DATA {
            return false;
        }
        if object.offset != next_place(end) {
            return false;
        }
        end = object.offset + object.size;
    }
    true
}

/// Whether an object is there and has so many bytes.
fn reaches(globals: &[DataObject], global: usize, plus: u64) -> bool
    ensures { OnTrue result (Reaches plus (slice_get globals.now global)) }
{
    match globals.get(global) {
        None => false,
        Some(object) => plus <= object.size,
    }
}

/// Whether a cell is the part of an address with this number.
fn is_part(cell: &DataCell, address: u32, moved: u64, number: u64) -> bool
    ensures { OnTrue result (cell.now ≡ AddressPart address moved number) }
{
    match cell {
        DataCell::Byte(_) => false,
        DataCell::AddressPart { global, plus, part } => {
            *global == address && *plus == moved && u64::from(*part) == number
        }
    }
}

/// Whether the cell at a place is there and is the part of an address with this number.
fn has_part(cells: &[DataCell], at: usize, address: u32, moved: u64, number: u64) -> bool
    ensures { OnTrue result (slice_get cells.now at ≡ Some (AddressPart address moved number)) }
{
    match cells.get(at) {
        None => false,
        Some(cell) => is_part(cell, address, moved, number),
    }
}

/// Whether the eight parts of an address stand in order, from a place on.
fn stands_whole(cells: &[DataCell], first: usize, address: u32, moved: u64) -> bool
    ensures { OnTrue result (StandsWhole cells.now first address moved) }
{
    for part in 0..8_usize {
        let Some(at) = first.checked_add(part) else {
            return false;
        };
        if !has_part(cells, at, address, moved, part as u64) {
            return false;
        }
    }
    true
}

/// Whether a cell at a place of an object is lawful.
fn is_lawful_cell(globals: &[DataObject], object: &DataObject, at: usize, cell: &DataCell) -> bool
    ensures { OnTrue result (IsLawfulCell globals.now object.now at cell.now) }
{
    match cell {
        DataCell::Byte(byte) => {
            let _byte = *byte;
            true
        }
        DataCell::AddressPart { global, plus, .. } => {
            object.writable
                && stands_whole(object.cells.as_slice(), at / 8 * 8, *global, *plus)
                && reaches(globals, *global as usize, *plus)
        }
    }
}

/// Whether each cell of an object is lawful.
fn has_lawful_cells(globals: &[DataObject], object: &DataObject) -> bool
    ensures { OnTrue result
        ((at : ℕ) (c : DataCell) →
        slice_get object.now.cells at ≡ Some c → IsLawfulCell globals.now object.now at c) }
{
    let cells = object.cells.as_slice();
    for at in 0..cells.len() {
        if !is_lawful_cell(globals, object, at, &cells[at]) {
            return false;
        }
    }
    true
}

/// Whether an object is one of these.
fn is_lawful_object(globals: &[DataObject], object: &DataObject) -> bool
    ensures { OnTrue result (IsLawfulObject globals.now object.now) }
{
    if object.size > MOST_DATA || object.cells.len() as u64 > object.size {
        return false;
    }
    has_lawful_cells(globals, object)
}

/// Whether each of these objects is lawful.
fn all_lawful_objects(globals: &[DataObject]) -> bool
    ensures { OnTrue result (All (IsLawfulObject globals.now) globals.now) }
{
    for object in globals {
        if !is_lawful_object(globals, object) {
            return false;
        }
    }
    true
}

/// Whether these are the objects of a program.
pub fn are_lawful_objects(globals: &[DataObject]) -> bool
    ensures { OnTrue result (AreLawful globals.now) }
{
    if globals.len() > u32::MAX as usize || !lie_in_order(globals) {
        return false;
    }
    all_lawful_objects(globals)
}
