//! The memory at the start of a program: its objects of static storage.

ghost use Rattle.std.specs.Prelude.{◌≡◌, ◌-◌, ◌<◌, ◌≤◌, ◌++◌, ◌∷◌, [], true, map, take, drop, replicate, length, slice_get, Some, IfOk, OnOk};
ghost use Rattle.mem_objects.specs.Start as starts;
ghost use Rattle.mem_model.specs.Cells.{parts_of};
ghost use Rattle.mem_model.specs.declared.value.Cell.TheVariants as cell;
ghost use Rattle.suifvm_operations.specs.Tidy.{MemoryIsTidy};
ghost use Rattle.suifvm_operations.specs.model.Fills.{Adds};
ghost use Rattle.suifvm_operations.specs.model.Units.{HasParts};

use crate::objects::begin_object;
use mem_model::memory::Mem;
use mem_model::value::{Ptr, Value};
use mem_objects::{DataCell, DataObject};
use std::alloc::{AllocError, Global};

/// How many zero bytes are put at once.
const ZEROS: usize = 64;

/// Puts a byte into an object. Where it has no place there, it is as for want of memory.
fn put_byte(memory: &mut Mem, object: u64, at: u64, byte: u8) -> Result<(), AllocError>
    requires { MemoryIsTidy memory.old }
    ensures { OnOk result (Adds memory.old memory.new object at (cell.Byte byte ∷ [])) }
{
    let Ok(offset) = i64::try_from(at) else {
        return Err(AllocError);
    };
    match memory.init(Ptr { object, offset }, &[Value::Word(u64::from(byte))]) {
        Ok(()) => Ok(()),
        Err(_) => Err(AllocError),
    }
}

/// Puts an address into an object, in the same way.
fn put_address(memory: &mut Mem, object: u64, at: u64, to: Ptr) -> Result<(), AllocError>
    requires { MemoryIsTidy memory.old }
    ensures { OnOk result (Adds memory.old memory.new object at (parts_of to)) }
{
    let Ok(offset) = i64::try_from(at) else {
        return Err(AllocError);
    };
    match memory.store(Ptr { object, offset }, 8, Value::Address(to)) {
        Ok(()) => Ok(()),
        Err(_) => Err(AllocError),
    }
}

/// Whether the cell with a number is that part of an address.
fn is_part(cells: &[DataCell], global: u32, plus: u64, part: u8) -> bool
    ensures { result ≡ true → slice_get cells.now part ≡ Some (DataCell.AddressPart global plus part) }
{
    match cells.get(part as usize) {
        Some(
            DataCell::AddressPart {
                global: g,
                plus: p,
                part: k,
            },
        ) => *g == global && *p == plus && *k == part,
        Some(DataCell::Byte(_)) => false,
        None => false,
    }
}

/// Whether the first eight cells are the parts of an address, in order.
#[tactic(auto, using(crate::proofs::Units::parts_more))]
fn is_whole(cells: &[DataCell], global: u32, plus: u64) -> bool
    ensures { result ≡ true → HasParts cells.now global plus 8 }
{
    for part in 0..8 {
        if !is_part(cells, global, plus, part) {
            return false;
        }
    }
    true
}

/// Puts eight cells that are an address into an object. Where they are none, it is as for want of memory.
fn put_whole(
    memory: &mut Mem,
    object: u64,
    at: u64,
    cells: &[DataCell],
    global: u32,
    plus: u64,
) -> Result<(), AllocError>
    requires { MemoryIsTidy memory.old }
    ensures parts { OnOk result (HasParts cells.now global plus 8) }
    ensures adds { OnOk result (Adds memory.old memory.new object at (map starts.memory_cell (take 8 cells.now))) }
{
    if !is_whole(cells, global, plus) {
        return Err(AllocError);
    }
    let Ok(offset) = i64::try_from(plus) else {
        return Err(AllocError);
    };
    let to = Ptr {
        object: u64::from(global),
        offset,
    };
    put_address(memory, object, at, to)?;
    Ok(())
}

/// Puts the first cell into an object, or the first eight where they are an address, and answers how many it put. What
/// begins with another part of an address is as for want of memory; no lawful object does.
#[tactic(auto, using(crate::proofs::Units::byte_unit, crate::proofs::Units::address_within))]
fn put_unit(memory: &mut Mem, object: u64, at: u64, cells: &[DataCell]) -> Result<usize, AllocError>
    requires tidy { MemoryIsTidy memory.old }
    requires some { 0 < length cells.now }
    ensures more { IfOk result (λ n. 0 < n) }
    ensures within { IfOk result (λ n. n ≤ length cells.now) }
    ensures adds { IfOk result
        (λ n. Adds memory.old memory.new object at (map starts.memory_cell (take n cells.now))) }
{
    match cells[0] {
        DataCell::Byte(byte) => {
            put_byte(memory, object, at, byte)?;
            Ok(1)
        }
        DataCell::AddressPart { global, plus, .. } => {
            put_whole(memory, object, at, cells, global, plus)?;
            Ok(8)
        }
    }
}

/// The cells from a place on.
fn cells_from(cells: &[DataCell], at: usize) -> &[DataCell]
    requires { at ≤ length cells.now }
    ensures { result.now ≡ drop at cells.now }
{
    &cells[at..]
}

/// Puts cells into an object, from its front on.
#[tactic(auto, using(crate::proofs::Fills::adds_nothing, crate::proofs::Loops::cells_all))]
fn put_cells(memory: &mut Mem, object: u64, cells: &[DataCell]) -> Result<(), AllocError>
    requires { MemoryIsTidy memory.old }
    ensures { OnOk result (Adds memory.old memory.new object 0 (map starts.memory_cell cells.now)) }
{
    let mut at: usize = 0;
    while at < cells.len() {
        let rest = cells_from(cells, at);
        let count = put_unit(memory, object, at as u64, rest)?;
        at = at + count;
    }
    Ok(())
}

/// Puts some zero bytes into an object, in the same way as one byte.
fn put_zero_row(memory: &mut Mem, object: u64, at: u64, count: usize) -> Result<(), AllocError>
    requires tidy { MemoryIsTidy memory.old }
    requires few { count ≤ ZEROS }
    ensures { OnOk result (Adds memory.old memory.new object at (replicate count (cell.Byte 0))) }
{
    let Ok(offset) = i64::try_from(at) else {
        return Err(AllocError);
    };
    let zeros = [Value::Word(0); ZEROS];
    match memory.init(Ptr { object, offset }, &zeros[..count]) {
        Ok(()) => Ok(()),
        Err(_) => Err(AllocError),
    }
}

/// Puts zero bytes into an object, from a place up to an end.
#[tactic(auto, using(crate::proofs::Loops::zeros_none, crate::proofs::Loops::zeros_all))]
fn put_zeros(memory: &mut Mem, object: u64, first: u64, end: u64) -> Result<(), AllocError>
    requires tidy { MemoryIsTidy memory.old }
    requires order { first ≤ end }
    ensures { OnOk result (Adds memory.old memory.new object first (replicate (end - first) (cell.Byte 0))) }
{
    let mut at = first;
    while at < end {
        let count = (end - at).min(ZEROS as u64);
        put_zero_row(memory, object, at, count as usize)?;
        at = at + count;
    }
    Ok(())
}

/// Makes an object of static storage, with what it holds at the start. Where it has more cells than bytes, or a part of
/// an address alone, which no lawful object has, it is as for want of memory.
#[tactic(auto, using(crate::proofs::Loops::object_made))]
fn make_object(memory: &mut Mem, object: &DataObject) -> Result<(), AllocError>
    requires { MemoryIsTidy memory.old }
    ensures made { OnOk result (memory.new ≡ memory.old ++ starts.start_object object.now ∷ []) }
    ensures tidy { OnOk result (MemoryIsTidy memory.new) }
{
    let cells = object.cells.as_slice();
    let count = cells.len() as u64;
    if count > object.size {
        return Err(AllocError);
    }
    let number = begin_object(memory, object.size, object.writable)?;
    put_cells(memory, number, cells)?;
    put_zeros(memory, number, count, object.size)
}

/// The memory at the start of a program with these objects. It fails where memory is short, or an object is not
/// lawful.
#[tactic(auto, using(crate::proofs::Loops::none_tidy, crate::proofs::Loops::objects_more, crate::proofs::Loops::objects_all, crate::proofs::Loops::objects_count))]
pub fn start_memory(alloc: Global, globals: &[DataObject]) -> Result<Mem, AllocError>
    ensures memory { IfOk result (λ m. m ≡ starts.start_memory globals.now) }
    ensures tidy { IfOk result (λ m. MemoryIsTidy m) }
    ensures count { IfOk result (λ m. length m ≡ length globals.now) }
{
    let mut memory = Mem::new(alloc);
    for object in globals {
        make_object(&mut memory, object)?;
    }
    Ok(memory)
}
