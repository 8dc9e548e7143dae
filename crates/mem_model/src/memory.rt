//! The memory: objects by their numbers, and the accesses to them.

ghost use Rattle.std.specs.Prelude.{◌≡◌, ◌≢◌, ◌⊎◌, ◌+◌, ◌<◌, [], length, IfOk, OnOk, OnErr, IfErr, IfSome, IfNone, IsSome, ◌↔◌, IsTrue, ◌≤◌, ◌^◌, ◌||◌, All, true, false, take, drop, map};
ghost use Rattle.mem_model.specs.Cells.{value_or_fault, cells_of};
ghost use Rattle.mem_model.specs.Memory.{begin_object, end_object, no_object, object_at, is_within, is_gone, is_outside, is_misaligned, is_read_only, overlaps, place_of, row_at, put_row, load_at, store_at, copy_at, init_at, range_fault, read_fault, write_fault, copy_fault, byte_of, IsByte, IsWidth, IsStorable};
ghost use Rattle.mem_model.specs.model.Objects.{object_in, object_of, with_row_in};

use crate::cells::Cells;
use crate::entries::{Entry, Live, find, make_room, trim};
use crate::rows::{copy_from, copy_within, load_value, write_bytes, write_value};
use crate::value::{MemFault, Ptr, Value};
use std::alloc::{AllocError, Global};
use std::marker::Model;
use std::mem;

/// A memory, which contracts see as the list of all objects ever made. It takes room for live objects alone, at most
/// four times as many entries as objects ever lived at once, however many were made.
#[derive(Debug, Drop)]
pub struct Mem {
    alloc: Global,
    /// How many objects were ever made.
    made: u64,
    /// What is kept of them.
    entries: Vec<Entry>,
}

impl Model for Mem {
    ghost use Rattle.mem_model.specs.Memory.{Memory};

    ghost Value = { Memory };

    ghost use Rattle.mem_model.specs.model.Objects.{objects_in, IsRising};

    ghost view = { λ m. objects_in m.made m.entries.items };

    ghost invariant = { λ m. IsRising 0 m.made m.entries.items };
}

/// Whether so many bytes from an offset on lie within a length.
fn is_range_within(offset: i64, size: u64, length: u64) -> bool
    ensures { result ≡ is_within offset size length }
{
    offset >= 0 && size <= length && offset.unsigned_abs() <= length - size
}

/// Whether an offset is no multiple of an alignment. Of 0 only 0 is a multiple.
fn is_offset_misaligned(p: Ptr, align: u64) -> bool
    ensures { result ≡ is_misaligned p align }
{
    let place = p.offset.unsigned_abs();
    if align == 0 {
        place != 0
    } else {
        place % align != 0
    }
}

/// Whether two ranges share a byte and are not the same.
fn is_overlap(p: Ptr, q: Ptr, size: u64) -> bool
    ensures { result ≡ overlaps p q size }
{
    let a = p.offset.unsigned_abs();
    let b = q.offset.unsigned_abs();
    let gap = if a < b { b - a } else { a - b };
    p.object == q.object && a != b && gap < size
}

/// Whether one of the two offsets of a copy is misaligned.
fn is_copy_misaligned(to: Ptr, from: Ptr, align: u64) -> bool
    ensures { result ≡ (is_misaligned to align || is_misaligned from align) }
{
    is_offset_misaligned(to, align) || is_offset_misaligned(from, align)
}

/// The place of an offset that is not below 0.
fn place(p: Ptr) -> usize
    ensures value { result ≡ place_of p.offset }
    ensures bound { result ≤ 2 ^ 63 }
{
    p.offset.unsigned_abs() as usize
}

/// Writes a value into a live object.
fn put_value(slot: &mut Option<Box<Live>>, at: usize, width: usize, value: Value)
    requires live { IsTrue (object_in slot.old).live }
    requires narrow { width ≤ 8 }
    requires storable { IsStorable width value }
    requires within { at + width ≤ length (object_in slot.old).cells }
    requires fits { at + width < 2 ^ 64 }
    ensures { object_in slot.new ≡ with_row_in (object_in slot.old) at (cells_of width value) }
{
    match slot {
        Some(object) => write_value(&mut object.cells, at, width, value),
        None => (),
    }
}

/// Writes bytes into a live object.
fn put_bytes(slot: &mut Option<Box<Live>>, at: usize, values: &[Value])
    requires live { IsTrue (object_in slot.old).live }
    requires within { at + length values.now ≤ length (object_in slot.old).cells }
    requires bytes { All IsByte values.now }
    requires fits { at + length values.now < 2 ^ 64 }
    ensures { object_in slot.new ≡ with_row_in (object_in slot.old) at (map byte_of values.now) }
{
    match slot {
        Some(object) => write_bytes(&mut object.cells, at, values),
        None => (),
    }
}

/// Copies some cells of a live object to a range of it that lies apart.
fn copy_inside(slot: &mut Option<Box<Live>>, to: usize, from: usize, size: usize)
    requires live { IsTrue (object_in slot.old).live }
    requires within { to + size ≤ length (object_in slot.old).cells }
    requires source { from + size ≤ length (object_in slot.old).cells }
    requires fits_to { to + size < 2 ^ 64 }
    requires fits_from { from + size < 2 ^ 64 }
    requires apart { (to + size ≤ from) ⊎ (from + size ≤ to) }
    ensures { object_in slot.new
        ≡ with_row_in (object_in slot.old) to (take size (drop from (object_in slot.old).cells)) }
{
    match slot {
        Some(object) => copy_within(&mut object.cells, to, from, size),
        None => (),
    }
}

/// Copies some cells of a live object to another one.
fn copy_across(
    target: &mut Option<Box<Live>>,
    to: usize,
    source: &Option<Box<Live>>,
    from: usize,
    size: usize,
)
    requires live { IsTrue (object_in target.old).live }
    requires source_live { IsTrue (object_in source.now).live }
    requires within { to + size ≤ length (object_in target.old).cells }
    requires source { from + size ≤ length (object_in source.now).cells }
    requires fits_to { to + size < 2 ^ 64 }
    requires fits_from { from + size < 2 ^ 64 }
    ensures { object_in target.new
        ≡ with_row_in (object_in target.old) to (take size (drop from (object_in source.now).cells)) }
{
    match (target, source) {
        (Some(object), Some(other)) => copy_from(&mut object.cells, to, &other.cells, from, size),
        _ => (),
    }
}

impl Mem {
    /// A memory without objects. Takes no memory.
    pub fn new(alloc: Global) -> Mem
        ensures { result ≡ [] }
    {
        Mem {
            alloc,
            made: 0,
            entries: Vec::new(alloc),
        }
    }

    /// Makes a live object of so many unwritten cells, and answers its number: how many objects were
    /// made before it. Where memory is short, or no number is left, the memory is as before.
    pub fn alloc_object(&mut self, size: u64, writable: bool) -> Result<u64, AllocError>
        ensures number { IfOk result (λ id. id ≡ length self.old) }
        ensures ok { OnOk result (self.new ≡ begin_object self.old size writable) }
        ensures err { OnErr result (self.new ≡ self.old) }
    {
        let number = self.made;
        let made = number.checked_add(1).ok_or(AllocError)?;
        let cells = Cells::new(self.alloc, size as usize)?;
        let object = Some(Box::new(self.alloc, Live { writable, cells })?);
        make_room(&mut self.entries)?;
        self.entries.push(Entry { number, object })?;
        self.made = made;
        Ok(number)
    }

    /// How many cells a live object has; `None` where it was never made or has ended. Takes no memory.
    pub fn size_of(&self, id: u64) -> Option<u64>
        ensures live { IsSome result ↔ IsTrue (object_at self.now id).live }
        ensures size { IfSome result (λ size. size ≡ length (object_at self.now id).cells) }
    {
        match self.object(id) {
            Some(object) => Some(object.cells.len() as u64),
            None => None,
        }
    }

    /// The object with a number; `None` where it was never made or has ended.
    fn object(&self, id: u64) -> Option<&Live>
        ensures live { IfSome result (λ live. object_at self.now id ≡ object_of live.now) }
        ensures gone { IfNone result (object_at self.now id ≡ no_object) }
    {
        match find(&self.entries, self.made, id) {
            Some(at) => self.entries[at].live(),
            None => None,
        }
    }

    /// Ends an object, which gives its cells back. Takes no memory.
    pub fn end_object(&mut self, id: u64)
        requires { IsTrue (object_at self.old id).live }
        ensures { self.new ≡ end_object self.old id }
    {
        match find(&self.entries, self.made, id) {
            Some(at) => {
                self.entries[at].object = None;
                trim(&mut self.entries);
            }
            None => (),
        }
    }

    /// Whether the object of a pointer was never made or has ended.
    fn is_object_gone(&self, p: Ptr) -> bool
        ensures { result ≡ is_gone self.now p }
    {
        self.object(p.object).is_none()
    }

    /// How many cells the object of a pointer has.
    fn size_at(&self, p: Ptr) -> u64
        ensures { result ≡ length (object_at self.now p.object).cells }
    {
        match self.object(p.object) {
            Some(object) => object.cells.len() as u64,
            None => 0,
        }
    }

    /// Whether one of so many bytes lies outside the object of a pointer.
    fn is_range_outside(&self, p: Ptr, size: u64) -> bool
        ensures value { result ≡ is_outside self.now p size }
        ensures end { result ≡ false → 0 < size → place_of p.offset + size < 2 ^ 64 }
    {
        let length = self.size_at(p);
        size > 0 && !is_range_within(p.offset, size, length)
    }

    /// Whether the object of a pointer may not be written.
    fn is_object_read_only(&self, p: Ptr) -> bool
        ensures { result ≡ is_read_only self.now p }
    {
        match self.object(p.object) {
            Some(object) => !object.writable,
            None => true,
        }
    }

    /// The fault of a range of so many bytes.
    fn range_fault(&self, p: Ptr, size: u64) -> Option<MemFault>
        ensures value { result ≡ range_fault self.now p size }
        ensures end { IfNone result (0 < size → place_of p.offset + size < 2 ^ 64) }
    {
        if self.is_object_gone(p) {
            return Some(MemFault::NoObject);
        }
        if self.is_range_outside(p, size) {
            return Some(MemFault::Outside);
        }
        None
    }

    /// The fault of reading so many bytes at an alignment.
    fn read_fault(&self, p: Ptr, size: u64, align: u64) -> Option<MemFault>
        ensures value { result ≡ read_fault self.now p size align }
        ensures end { IfNone result (0 < size → place_of p.offset + size < 2 ^ 64) }
    {
        if let Some(fault) = self.range_fault(p, size) {
            return Some(fault);
        }
        if is_offset_misaligned(p, align) {
            return Some(MemFault::Misaligned);
        }
        None
    }

    /// The fault of writing so many bytes at an alignment.
    fn write_fault(&self, p: Ptr, size: u64, align: u64) -> Option<MemFault>
        ensures value { result ≡ write_fault self.now p size align }
        ensures end { IfNone result (0 < size → place_of p.offset + size < 2 ^ 64) }
    {
        if let Some(fault) = self.read_fault(p, size, align) {
            return Some(fault);
        }
        if self.is_object_read_only(p) {
            return Some(MemFault::ReadOnly);
        }
        None
    }

    /// Loads so many bytes, as a number, which is extended with zeros, or as a pointer (C99 6.3.2.1).
    /// Takes no memory. `NoObject`, `Outside`, `Misaligned`, `Never` and `PartPointer`, of which the first
    /// that holds is answered.
    pub fn load(&self, p: Ptr, width: u32, pointer: bool) -> Result<Value, MemFault>
        requires width { IsWidth width }
        requires whole { pointer ≡ true → width ≡ 8 }
        ensures { result ≡ load_at self.now p width pointer }
    {
        let size = u64::from(width);
        match self.read_fault(p, size, size) {
            Some(fault) => Err(fault),
            None => self.load_cells(p, width as usize, pointer),
        }
    }

    /// What a load that has no other fault answers of its cells.
    fn load_cells(&self, p: Ptr, width: usize, pointer: bool) -> Result<Value, MemFault>
        requires free { read_fault self.now p width width ≡ None }
        requires end { 0 < width → place_of p.offset + width < 2 ^ 64 }
        requires width { IsWidth width }
        requires whole { pointer ≡ true → width ≡ 8 }
        ensures { result ≡ value_or_fault pointer (row_at self.now p width) }
    {
        match self.object(p.object) {
            Some(object) => load_value(&object.cells, place(p), width, pointer),
            None => Err(MemFault::NoObject),
        }
    }

    /// Stores a number, of which the low bytes of the width are kept, or a pointer (C99 6.5.16).
    /// Takes no memory. `NoObject`, `Outside`, `Misaligned` and `ReadOnly`, of which the first that holds
    /// is answered.
    pub fn store(&mut self, p: Ptr, width: u32, v: Value) -> Result<(), MemFault>
        requires width { IsWidth width }
        requires storable { IsStorable width v }
        ensures ok { OnOk result (store_at self.old p width v ≡ Ok self.new) }
        ensures err { IfErr result (λ fault. store_at self.old p width v ≡ Err fault) }
        ensures kept { OnErr result (self.new ≡ self.old) }
    {
        let size = u64::from(width);
        match self.write_fault(p, size, size) {
            Some(fault) => Err(fault),
            None => {
                self.store_cells(p, width as usize, v);
                Ok(())
            }
        }
    }

    /// Writes the value of a store that has no fault.
    fn store_cells(&mut self, p: Ptr, width: usize, v: Value)
        requires free { write_fault self.old p width width ≡ None }
        requires end { 0 < width → place_of p.offset + width < 2 ^ 64 }
        requires width { IsWidth width }
        requires storable { IsStorable width v }
        ensures { self.new ≡ put_row self.old p (cells_of width v) }
    {
        match find(&self.entries, self.made, p.object) {
            Some(at) => put_value(&mut self.entries[at].object, place(p), width, v),
            None => (),
        }
    }

    /// Copies so many cells as they are, unwritten ones and parts of pointers too (C99 6.5.16.1). Takes no
    /// memory. `NoObject`, `Outside`, which comes also where the ranges overlap without being the same,
    /// `Misaligned` by the alignment, and `ReadOnly`, of which the first that holds is answered.
    pub fn copy(&mut self, to: Ptr, from: Ptr, size: u64, align: u32) -> Result<(), MemFault>
        ensures ok { OnOk result (copy_at self.old to from size align ≡ Ok self.new) }
        ensures err { IfErr result (λ fault. copy_at self.old to from size align ≡ Err fault) }
        ensures kept { OnErr result (self.new ≡ self.old) }
    {
        match self.copy_fault(to, from, size, u64::from(align)) {
            Some(fault) => Err(fault),
            None => {
                self.copy_cells(to, from, size);
                Ok(())
            }
        }
    }

    /// Writes bytes at the making of an object, one that may not be written too. Takes no memory.
    /// `NoObject` and `Outside`, of which the first that holds is answered.
    pub fn init(&mut self, p: Ptr, cells: &[Value]) -> Result<(), MemFault>
        requires { All IsByte cells.now }
        ensures ok { OnOk result (init_at self.old p cells.now ≡ Ok self.new) }
        ensures err { IfErr result (λ fault. init_at self.old p cells.now ≡ Err fault) }
        ensures kept { OnErr result (self.new ≡ self.old) }
    {
        match self.range_fault(p, cells.len() as u64) {
            Some(fault) => Err(fault),
            None => {
                self.init_cells(p, cells);
                Ok(())
            }
        }
    }

    /// Writes the bytes of an initialisation that has no fault.
    fn init_cells(&mut self, p: Ptr, cells: &[Value])
        requires bytes { All IsByte cells.now }
        requires free { range_fault self.old p (length cells.now) ≡ None }
        requires end { 0 < length cells.now → place_of p.offset + length cells.now < 2 ^ 64 }
        ensures { self.new ≡ put_row self.old p (map byte_of cells.now) }
    {
        if cells.is_empty() {
            return;
        }
        match find(&self.entries, self.made, p.object) {
            Some(at) => put_bytes(&mut self.entries[at].object, place(p), cells),
            None => (),
        }
    }

    /// Whether one of the two objects of a copy was never made or has ended.
    fn is_copy_gone(&self, to: Ptr, from: Ptr) -> bool
        ensures { result ≡ (is_gone self.now to || is_gone self.now from) }
    {
        self.is_object_gone(to) || self.is_object_gone(from)
    }

    /// Whether one of the two ranges of a copy lies outside, or they overlap without being the same.
    fn is_copy_outside(&self, to: Ptr, from: Ptr, size: u64) -> bool
        ensures value { result
            ≡ (is_outside self.now to size || is_outside self.now from size || overlaps to from size) }
        ensures end_to { result ≡ false → 0 < size → place_of to.offset + size < 2 ^ 64 }
        ensures end_from { result ≡ false → 0 < size → place_of from.offset + size < 2 ^ 64 }
    {
        self.is_range_outside(to, size)
            || self.is_range_outside(from, size)
            || is_overlap(to, from, size)
    }

    /// The fault of a copy of so many bytes.
    fn copy_fault(&self, to: Ptr, from: Ptr, size: u64, align: u64) -> Option<MemFault>
        ensures value { result ≡ copy_fault self.now to from size align }
        ensures end_to { IfNone result (0 < size → place_of to.offset + size < 2 ^ 64) }
        ensures end_from { IfNone result (0 < size → place_of from.offset + size < 2 ^ 64) }
    {
        if self.is_copy_gone(to, from) {
            return Some(MemFault::NoObject);
        }
        if self.is_copy_outside(to, from, size) {
            return Some(MemFault::Outside);
        }
        if is_copy_misaligned(to, from, align) {
            return Some(MemFault::Misaligned);
        }
        if self.is_object_read_only(to) {
            return Some(MemFault::ReadOnly);
        }
        None
    }

    /// Copies the cells of a copy that has no fault.
    fn copy_cells(&mut self, to: Ptr, from: Ptr, size: u64)
        requires live { (is_gone self.old to || is_gone self.old from) ≡ false }
        requires within { (is_outside self.old to size || is_outside self.old from size || overlaps to from size)
            ≡ false }
        requires end_to { 0 < size → place_of to.offset + size < 2 ^ 64 }
        requires end_from { 0 < size → place_of from.offset + size < 2 ^ 64 }
        ensures { self.new ≡ put_row self.old to (row_at self.old from size) }
    {
        if size == 0 {
            return;
        }
        if to.object != from.object {
            return self.copy_between_objects(to, from, size);
        }
        if to.offset != from.offset {
            self.copy_within_object(to, from, size);
        }
    }

    /// Copies some cells of an object to a range of it that lies apart.
    fn copy_within_object(&mut self, to: Ptr, from: Ptr, size: u64)
        requires some { 0 < size }
        requires live { is_gone self.old to ≡ false }
        requires target { is_outside self.old to size ≡ false }
        requires source { is_outside self.old from size ≡ false }
        requires same { to.object ≡ from.object }
        requires apart { (place_of to.offset + size ≤ place_of from.offset) ⊎
            (place_of from.offset + size ≤ place_of to.offset) }
        ensures { self.new ≡ put_row self.old to (row_at self.old from size) }
    {
        match find(&self.entries, self.made, to.object) {
            Some(at) => copy_inside(
                &mut self.entries[at].object,
                place(to),
                place(from),
                size as usize,
            ),
            None => (),
        }
    }

    /// Copies some cells of an object to another one.
    fn copy_between_objects(&mut self, to: Ptr, from: Ptr, size: u64)
        requires some { 0 < size }
        requires to_live { is_gone self.old to ≡ false }
        requires from_live { is_gone self.old from ≡ false }
        requires target { is_outside self.old to size ≡ false }
        requires source { is_outside self.old from size ≡ false }
        requires other { to.object ≢ from.object }
        requires end_to { place_of to.offset + size < 2 ^ 64 }
        requires end_from { place_of from.offset + size < 2 ^ 64 }
        ensures { self.new ≡ put_row self.old to (row_at self.old from size) }
    {
        let Some(target_at) = find(&self.entries, self.made, to.object) else {
            return;
        };
        let Some(source_at) = find(&self.entries, self.made, from.object) else {
            return;
        };
        let mut target = mem::replace(&mut self.entries[target_at].object, None);
        let source = &self.entries[source_at].object;
        copy_across(&mut target, place(to), source, place(from), size as usize);
        self.entries[target_at].object = target;
    }
}
