//! The data of objects of static storage: its bytes, and its fixes.

ghost use Rattle.std.specs.Prelude.{◌≡◌, ◌+◌, ◌<◌, ◌≤◌, ◌^◌, All, ◌++◌, length, map, replicate, slice_get, IfOk, OnOk};
ghost use Rattle.frame_memory.specs.flat_globals.Globals as place;
ghost use Rattle.frame_memory.specs.global_data.GlobalBytes as spec;
ghost use Rattle.frame_memory.specs.global_data.GlobalBytes.{bytes_from_end, global_bytes, cell_fixes, cells_fixes, objects_fixes, global_fixes};
ghost use Rattle.image_assembly.specs.model.Bounds.{ReachesWithin, LieWithin, FitsFixes};

use alpha_items::item::Fix;
use mem_objects::{DataCell, DataObject, MOST_DATA};
use std::alloc::{AllocError, Global};

// ---- bytes

/// The byte of a cell before the fixes.
fn unfixed_byte(cell: DataCell) -> u8
    ensures { result ≡ spec.unfixed_byte cell }
{
    match cell {
        DataCell::Byte(byte) => byte,
        DataCell::AddressPart { .. } => 0,
    }
}

/// Puts so many zeros. It fails only where memory is short.
fn push_zeros(bytes: &mut Vec<u8>, count: u64) -> Result<(), AllocError>
    ensures { OnOk result (bytes.new.items ≡ bytes.old.items ++ replicate count 0) }
{
    for _byte in 0..count {
        bytes.push(0)?;
    }
    Ok(())
}

/// Puts the bytes of cells. It fails only where memory is short.
fn push_cells(bytes: &mut Vec<u8>, cells: &[DataCell]) -> Result<(), AllocError>
    ensures { OnOk result (bytes.new.items ≡ bytes.old.items ++ map spec.unfixed_byte cells.now) }
{
    for cell in cells {
        bytes.push(unfixed_byte(*cell))?;
    }
    Ok(())
}

/// Puts the bytes of an object. It fails only where memory is short.
#[tactic(auto, using(crate::proofs::Loops::object_joined))]
fn push_object(bytes: &mut Vec<u8>, object: &DataObject) -> Result<(), AllocError>
    requires { object.now.size ≤ MOST_DATA }
    ensures { OnOk result (bytes.new.items ≡ bytes.old.items ++ spec.object_bytes object.now) }
{
    let cells = object.cells.as_slice();
    push_cells(bytes, cells)?;
    push_zeros(bytes, object.size.saturating_sub(cells.len() as u64))
}

/// The bytes of the data. It fails only where memory is short.
#[tactic(auto, using(crate::proofs::Loops::bytes_next, crate::proofs::Loops::bytes_end, crate::proofs::Loops::lie_next, crate::proofs::Loops::lie_here))]
pub(crate) fn bytes_of(alloc: Global, globals: &[DataObject]) -> Result<Vec<u8>, AllocError>
    requires { LieWithin 0 globals.now }
    ensures { IfOk result (λ bytes. bytes.items ≡ global_bytes globals.now) }
{
    let mut bytes = Vec::new(alloc);
    let mut end = 0;
    for object in globals {
        push_zeros(&mut bytes, object.offset.saturating_sub(end))?;
        push_object(&mut bytes, object)?;
        end = object.offset + object.size;
    }
    Ok(bytes)
}

// ---- fixes

/// Where an object begins.
fn offset_of(globals: &[DataObject], global: usize) -> u64
    ensures { result ≡ place.global_offset (slice_get globals.now global) }
{
    match globals.get(global) {
        None => 0,
        Some(object) => object.offset,
    }
}

/// Puts the fix of a cell at a place of the data, if it begins an address. It fails only where memory is short.
#[tactic(auto, using(crate::proofs::Loops::part_fixes, crate::proofs::Loops::first_fixes))]
fn push_fix(
    fixes: &mut Vec<Fix>,
    globals: &[DataObject],
    at: u64,
    cell: DataCell,
) -> Result<(), AllocError>
    requires at { at < 2 ^ 32 }
    requires reaches { ReachesWithin globals.now cell }
    ensures { OnOk result (fixes.new.items ≡ fixes.old.items ++ cell_fixes globals.now at cell) }
{
    match cell {
        DataCell::Byte(_) => Ok(()),
        DataCell::AddressPart { global, plus, part } => {
            if part != 0 {
                return Ok(());
            }
            let offset = offset_of(globals, global as usize) + plus;
            fixes.push(Fix {
                at: at as u32,
                offset: offset as u32,
            })?;
            Ok(())
        }
    }
}

/// Puts the fixes of cells from a place of the data on. It fails only where memory is short.
#[tactic(auto, using(crate::proofs::Loops::cells_next, crate::proofs::Loops::cells_end))]
fn push_cell_fixes(
    fixes: &mut Vec<Fix>,
    globals: &[DataObject],
    start: u64,
    cells: &[DataCell],
) -> Result<(), AllocError>
    requires end { start + length cells.now ≤ MOST_DATA }
    requires reaches { All (ReachesWithin globals.now) cells.now }
    ensures { OnOk result (fixes.new.items ≡ fixes.old.items ++ cells_fixes globals.now start cells.now) }
{
    for at in 0..cells.len() {
        push_fix(fixes, globals, start + at as u64, cells[at])?;
    }
    Ok(())
}

/// The fixes of the data. It fails only where memory is short.
#[tactic(auto, using(crate::proofs::Loops::fixes_next, crate::proofs::Loops::fixes_end))]
pub(crate) fn fixes_of(alloc: Global, globals: &[DataObject]) -> Result<Vec<Fix>, AllocError>
    requires { All (FitsFixes globals.now) globals.now }
    ensures { IfOk result (λ fixes. fixes.items ≡ global_fixes globals.now) }
{
    let mut fixes = Vec::new(alloc);
    for object in globals {
        push_cell_fixes(&mut fixes, globals, object.offset, object.cells.as_slice())?;
    }
    Ok(fixes)
}
