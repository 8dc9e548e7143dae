//! Rows of cells: what they stand for, and how they are written and copied.

ghost use Rattle.std.specs.Prelude.{◌≡◌, ℕ, ◌+◌, ◌<◌, ◌≤◌, ◌⊎◌, length, take, drop, replicate, map, All, IfSome, true, ◌^◌, ◌*◌, if◌then◌else◌};
ghost use Rattle.std.specs.List.{list_any};
ghost use Rattle.mem_model.specs.Cells.{bytes_of, cells_of, parts_of, number_of, cell_eq, cells_eq, pointer_of, value_of, is_empty, value_or_fault, with_row};
ghost use Rattle.mem_model.specs.Memory.{byte_of, IsByte, IsStorable};
ghost use Rattle.mem_model.specs.declared.value.Cell.TheVariants.{Empty};
ghost use Rattle.mem_model.specs.declared.value.MemFault.TheVariants.{Never, PartPointer};

use crate::cells::Cells;
use crate::value::{Cell, MemFault, Ptr, Value};

/// Whether one of so many cells was never written.
fn has_empty(cells: &Cells, at: usize, width: usize) -> bool
    requires within { at + width ≤ length cells.now }
    requires fits { at + width < 2 ^ 64 }
    ensures { result ≡ list_any is_empty (take width (drop at cells.now)) }
{
    for k in 0..width {
        if let Cell::Empty = cells.get(at + k) {
            return true;
        }
    }
    false
}

/// The number whose bytes so many cells are, the least first; `None` where they are not all bytes.
fn number_at(cells: &Cells, at: usize, width: usize) -> Option<u64>
    requires within { at + width ≤ length cells.now }
    requires narrow { width ≤ 8 }
    requires fits { at + width < 2 ^ 64 }
    ensures value { result ≡ number_of (take width (drop at cells.now)) }
    ensures bound { IfSome result (λ number. number < 2 ^ (8 * width)) }
{
    if width == 0 {
        return Some(0);
    }
    let Cell::Byte(byte) = cells.get(at) else {
        return None;
    };
    let high = number_at(cells, at + 1, width - 1)?;
    Some(u64::from(byte) + 256 * high)
}

/// Whether two cells hold the same: `==`, with a contract that says so.
fn is_same(a: Cell, b: Cell) -> bool
    ensures { result ≡ cell_eq a b }
{
    match (a, b) {
        (Cell::Empty, Cell::Empty) => true,
        (Cell::Byte(a), Cell::Byte(b)) => a == b,
        (Cell::Part(p, j), Cell::Part(q, k)) => p == q && j == k,
        _ => false,
    }
}

/// Whether the cells from a place on are these.
fn is_row(cells: &Cells, at: usize, row: &[Cell]) -> bool
    requires within { at + length row.now ≤ length cells.now }
    requires fits { at + length row.now < 2 ^ 64 }
    ensures { result ≡ cells_eq (take (length row.now) (drop at cells.now)) row.now }
{
    for (k, cell) in row.iter().enumerate() {
        if !is_same(cells.get(at + k), *cell) {
            return false;
        }
    }
    true
}

/// The parts of a pointer.
fn parts(pointer: Ptr) -> [Cell; 8]
    ensures { result ≡ parts_of pointer }
{
    [
        Cell::Part(pointer, 0),
        Cell::Part(pointer, 1),
        Cell::Part(pointer, 2),
        Cell::Part(pointer, 3),
        Cell::Part(pointer, 4),
        Cell::Part(pointer, 5),
        Cell::Part(pointer, 6),
        Cell::Part(pointer, 7),
    ]
}

/// The bytes of a number, the least first.
fn bytes(number: u64) -> [Cell; 8]
    ensures { result ≡ bytes_of 8 number }
{
    let [a, b, c, d, e, f, g, h] = number.to_le_bytes();
    [
        Cell::Byte(a),
        Cell::Byte(b),
        Cell::Byte(c),
        Cell::Byte(d),
        Cell::Byte(e),
        Cell::Byte(f),
        Cell::Byte(g),
        Cell::Byte(h),
    ]
}

/// The pointer or the null that eight cells stand for.
fn pointer_at(cells: &Cells, at: usize) -> Option<Value>
    requires within { at + 8 ≤ length cells.now }
    requires fits { at + 8 < 2 ^ 64 }
    ensures { result ≡ pointer_of (take 8 (drop at cells.now)) }
{
    if is_row(cells, at, &bytes(0)) {
        return Some(Value::Word(0));
    }
    let Cell::Part(pointer, _) = cells.get(at) else {
        return None;
    };
    if is_row(cells, at, &parts(pointer)) {
        Some(Value::Address(pointer))
    } else {
        None
    }
}

/// The value that so many cells stand for, as a number or as a pointer.
fn value_at(cells: &Cells, at: usize, width: usize, pointer: bool) -> Option<Value>
    requires within { at + width ≤ length cells.now }
    requires narrow { width ≤ 8 }
    requires whole { pointer ≡ true → width ≡ 8 }
    requires fits { at + width < 2 ^ 64 }
    ensures { result ≡ value_of pointer (take width (drop at cells.now)) }
{
    if pointer {
        pointer_at(cells, at)
    } else {
        number_at(cells, at, width).map(Value::Word)
    }
}

/// Why so many cells stand for no value.
fn fault_of_cells(cells: &Cells, at: usize, width: usize) -> MemFault
    requires within { at + width ≤ length cells.now }
    requires fits { at + width < 2 ^ 64 }
    ensures { result ≡ (if list_any is_empty (take width (drop at cells.now)) then Never else PartPointer) }
{
    if has_empty(cells, at, width) {
        MemFault::Never
    } else {
        MemFault::PartPointer
    }
}

/// What a load of so many cells answers.
pub fn load_value(cells: &Cells, at: usize, width: usize, pointer: bool) -> Result<Value, MemFault>
    requires within { at + width ≤ length cells.now }
    requires narrow { width ≤ 8 }
    requires whole { pointer ≡ true → width ≡ 8 }
    requires fits { at + width < 2 ^ 64 }
    ensures { result ≡ value_or_fault pointer (take width (drop at cells.now)) }
{
    match value_at(cells, at, width, pointer) {
        Some(value) => Ok(value),
        None => Err(fault_of_cells(cells, at, width)),
    }
}

/// Unwrites so many cells.
fn wipe(cells: &mut Cells, at: usize, size: usize)
    requires within { at + size ≤ length cells.old }
    requires fits { at + size < 2 ^ 64 }
    ensures { cells.new ≡ with_row cells.old at (replicate size Empty) }
{
    for k in 0..size {
        cells.set(at + k, Cell::Empty);
    }
}

/// Writes a row of cells.
fn write_row(cells: &mut Cells, at: usize, row: &[Cell])
    requires within { at + length row.now ≤ length cells.old }
    requires fits { at + length row.now < 2 ^ 64 }
    ensures { cells.new ≡ with_row cells.old at row.now }
{
    for (k, cell) in row.iter().enumerate() {
        cells.set(at + k, *cell);
    }
}

/// Writes the parts of a pointer, into cells that are wiped before, so that the parts find their home free.
fn write_pointer(cells: &mut Cells, at: usize, pointer: Ptr)
    requires within { at + 8 ≤ length cells.old }
    requires fits { at + 8 < 2 ^ 64 }
    ensures { cells.new ≡ with_row cells.old at (parts_of pointer) }
{
    wipe(cells, at, 8);
    write_row(cells, at, &parts(pointer));
}

/// Writes a value, at the width of a number.
pub fn write_value(cells: &mut Cells, at: usize, width: usize, value: Value)
    requires narrow { width ≤ 8 }
    requires storable { IsStorable width value }
    requires within { at + width ≤ length cells.old }
    requires fits { at + width < 2 ^ 64 }
    ensures { cells.new ≡ with_row cells.old at (cells_of width value) }
{
    match value {
        Value::Word(number) => write_row(cells, at, &bytes(number)[..width]),
        Value::Address(pointer) => write_pointer(cells, at, pointer),
        Value::Unset => (),
    }
}

/// The cell of a value that is a byte.
fn byte_cell(value: Value) -> Cell
    requires { IsByte value }
    ensures { result ≡ byte_of value }
{
    match value {
        Value::Word(byte) => Cell::Byte(byte as u8),
        _ => Cell::Empty,
    }
}

/// Writes bytes.
pub fn write_bytes(cells: &mut Cells, at: usize, values: &[Value])
    requires within { at + length values.now ≤ length cells.old }
    requires bytes { All IsByte values.now }
    requires fits { at + length values.now < 2 ^ 64 }
    ensures { cells.new ≡ with_row cells.old at (map byte_of values.now) }
{
    for (k, value) in values.iter().enumerate() {
        cells.set(at + k, byte_cell(*value));
    }
}

/// Copies so many cells from another object.
pub fn copy_from(cells: &mut Cells, at: usize, source: &Cells, from: usize, size: usize)
    requires within { at + size ≤ length cells.old }
    requires source { from + size ≤ length source.now }
    requires fits_at { at + size < 2 ^ 64 }
    requires fits_from { from + size < 2 ^ 64 }
    ensures { cells.new ≡ with_row cells.old at (take size (drop from source.now)) }
{
    wipe(cells, at, size);
    for k in 0..size {
        cells.set(at + k, source.get(from + k));
    }
}

/// Copies so many cells within an object, between ranges that lie apart.
pub fn copy_within(cells: &mut Cells, to: usize, from: usize, size: usize)
    requires within { to + size ≤ length cells.old }
    requires source { from + size ≤ length cells.old }
    requires fits_to { to + size < 2 ^ 64 }
    requires fits_from { from + size < 2 ^ 64 }
    requires apart { (to + size ≤ from) ⊎ (from + size ≤ to) }
    ensures { cells.new ≡ with_row cells.old to (take size (drop from cells.old)) }
{
    wipe(cells, to, size);
    for k in 0..size {
        let cell = cells.get(from + k);
        cells.set(to + k, cell);
    }
}
