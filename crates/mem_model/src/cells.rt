//! The cells of one object, kept in a few bytes each.
//!
//! A cell has a mark of two bytes. A pointer stands in a table: that of eight cells in a row, which hold
//! its eight parts in order, in the slot of those cells, and any other part in a slot of its own. Of the
//! table only the blocks in use are touched. So bytes take about three bytes a cell, and whole pointers
//! everywhere about five, each access takes constant time, and no write takes memory.

ghost use Rattle.std.specs.Prelude.{◌≡◌, ◌≢◌, ℕ, ◌+◌, ◌<◌, ◌≤◌, [], length, IfOk, slice_get, slice_set, replicate};
ghost use Rattle.std.specs.Bool.{OnTrue, OnFalse};
ghost use Rattle.mem_model.specs.model.Representation.{homes_of, cells_kept, IsOtherHome};
ghost use Rattle.mem_model.specs.declared.value.Cell.TheVariants.{Empty, Part};

use crate::table::Table;
use crate::value::{Cell, Ptr};
use std::alloc::{AllocError, Global};
use std::marker::Model;

/// How many parts a pointer has, and how many cells share a home.
const PARTS: usize = 8;

/// What a cell holds, but for the pointer of a part.
#[derive(Clone, Copy, Debug, PartialEq, Eq)]
enum Mark {
    /// Nothing was written.
    Unwritten,
    /// This byte.
    Number(u8),
    /// A part of the pointer in the home of its eight cells: the one with its own number among them.
    Home,
    /// The part with this number of the pointer in the cell's own slot.
    Stray(u8),
}

/// The cells of an object, which contracts see as their list.
#[derive(Debug, Drop)]
pub struct Cells {
    marks: Vec<Mark>,
    pointers: Table,
}

impl Model for Cells {
    ghost use Rattle.std.specs.Prelude.{◌≡◌, ◌≤◌, ◌+◌, ◌⊎◌, List, length, vec_capacity};
    ghost use Rattle.mem_model.specs.declared.value.Cell.{Cell};

    ghost Value = { List Cell };

    ghost use Rattle.mem_model.specs.model.Representation.{cells_kept, homes_of};

    ghost view = { λ c. cells_kept c.marks.items c.pointers };

    ghost invariant = { λ c. (length c.marks.items ≡ 0) ⊎
        (homes_of (length c.marks.items) + length c.marks.items ≤ length c.pointers) };
}

/// Whether no other cell of the group of `at` holds a part at home.
fn is_home_free(marks: &[Mark], at: usize) -> bool
    requires { at < length marks.now }
    ensures free { OnTrue result ((k : ℕ) → IsOtherHome marks.now at k → ⊥) }
    ensures taken { OnFalse result ((k : ℕ) × IsOtherHome marks.now at k) }
{
    let first = at - at % PARTS;
    let last = marks.len().min(first + PARTS);
    for k in first..last {
        if k != at && marks[k] == Mark::Home {
            return false;
        }
    }
    true
}

/// Puts a part of a pointer into a cell: at home where the home is that pointer's, or free, and else
/// into the cell's own slot.
fn put_part(marks: &mut [Mark], pointers: &mut Table, at: usize, pointer: Ptr, part: u8)
    requires within { at < length marks.old }
    requires room { homes_of (length marks.old) + length marks.old ≤ length pointers.old }
    ensures cells { cells_kept marks.new pointers.new
        ≡ slice_set (cells_kept marks.old pointers.old) at (Part pointer part) }
    ensures slots { length pointers.new ≡ length pointers.old }
{
    let home = at / PARTS;
    let own = usize::from(part) == at % PARTS;
    if own && pointers.get(home) == pointer {
        marks[at] = Mark::Home;
    } else if own && is_home_free(marks, at) {
        pointers.put(home, pointer);
        marks[at] = Mark::Home;
    } else {
        let slot = marks.len() / PARTS + 1 + at;
        pointers.put(slot, pointer);
        marks[at] = Mark::Stray(part);
    }
}

/// Puts a cell.
fn put_cell(marks: &mut [Mark], pointers: &mut Table, at: usize, cell: Cell)
    requires within { at < length marks.old }
    requires room { homes_of (length marks.old) + length marks.old ≤ length pointers.old }
    ensures cells { cells_kept marks.new pointers.new ≡ slice_set (cells_kept marks.old pointers.old) at cell }
    ensures slots { length pointers.new ≡ length pointers.old }
{
    match cell {
        Cell::Empty => marks[at] = Mark::Unwritten,
        Cell::Byte(byte) => marks[at] = Mark::Number(byte),
        Cell::Part(pointer, part) => put_part(marks, pointers, at, pointer, part),
    }
}

impl Cells {
    /// So many cells that were never written.
    pub(crate) fn new(alloc: Global, size: usize) -> Result<Cells, AllocError>
        ensures { IfOk result (λ cells. cells ≡ replicate size Empty) }
    {
        let mut marks = Vec::new(alloc);
        marks.resize(size, Mark::Unwritten)?;
        let slots = size / PARTS + 1 + size;
        let pointers = Table::new(alloc, slots / PARTS + 1)?;
        Ok(Cells { marks, pointers })
    }

    /// No cells. Takes no memory.
    pub(crate) fn none(alloc: Global) -> Cells
        ensures { result ≡ [] }
    {
        Cells {
            marks: Vec::new(alloc),
            pointers: Table::none(alloc),
        }
    }

    /// How many cells there are.
    pub(crate) fn len(&self) -> usize
        ensures { result ≡ length self.now }
    {
        self.marks.len()
    }

    /// What a cell holds.
    pub(crate) fn get(&self, at: usize) -> Cell
        requires { at < length self.now }
        ensures { slice_get self.now at ≡ Some result }
    {
        let homes = self.marks.len() / PARTS + 1;
        match self.marks[at] {
            Mark::Unwritten => Cell::Empty,
            Mark::Number(byte) => Cell::Byte(byte),
            Mark::Home => Cell::Part(self.pointers.get(at / PARTS), (at % PARTS) as u8),
            Mark::Stray(part) => Cell::Part(self.pointers.get(homes + at), part),
        }
    }

    /// Writes a cell. Takes no memory.
    pub(crate) fn set(&mut self, at: usize, cell: Cell)
        requires { at < length self.old }
        ensures { self.new ≡ slice_set self.old at cell }
    {
        put_cell(&mut self.marks, &mut self.pointers, at, cell);
    }
}
