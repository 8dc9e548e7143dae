//! The live objects of a memory, in a list by rising numbers.
//!
//! An object that ends leaves an entry without an object. Such entries go when none of a live object stands behind
//! them, and all of them go before the list takes more memory, which it does only where more than half of its entries
//! are of live objects. So it has room for at most four times as many as ever lived at once. An object is made and
//! ended in constant time over many, and found by its number in the time of a search by halves, or at once where no
//! object before it has ended, or none behind it.

ghost use Rattle.std.specs.Prelude.{◌≡◌, ◌↔◌, ◌<◌, length, IsTrue, IfSome, IfNone, None};
ghost use Rattle.std.specs.Bool.{OnTrue};
ghost use Rattle.mem_model.specs.model.Objects.{object_in, object_of, place_in, IsRising, IsEntryAt, IsLastEnded, KeepsObjects};

use crate::cells::Cells;
use std::alloc::AllocError;

/// A live object.
#[derive(Debug, Drop)]
pub(crate) struct Live {
    /// Whether a store may write it.
    pub(crate) writable: bool,
    /// Its cells.
    pub(crate) cells: Cells,
}

/// What is kept of an object.
#[derive(Debug, Drop)]
pub(crate) struct Entry {
    /// How many objects were made before it.
    pub(crate) number: u64,
    /// The object; `None` once it has ended.
    pub(crate) object: Option<Box<Live>>,
}

impl Entry {
    /// The object; `None` where it has ended.
    pub(crate) fn live(&self) -> Option<&Live>
        ensures live { IfSome result (λ live. object_in self.now.object ≡ object_of live.now) }
        ensures gone { IfNone result (self.now.object ≡ None) }
    {
        match &self.object {
            Some(object) => Some(object),
            None => None,
        }
    }
}

/// Whether the entry with a number stands at this place.
fn is_entry_at(entries: &[Entry], at: usize, number: u64) -> bool
    ensures number { IsTrue result ↔ IsEntryAt entries.now at number }
    ensures within { OnTrue result (at < length entries.now) }
{
    match entries.get(at) {
        Some(entry) => entry.number == number,
        None => false,
    }
}

/// The place of the entry with a number, of so many objects ever made; `None` where the object was never made, or has
/// ended and left no entry.
pub(crate) fn find(entries: &[Entry], made: u64, number: u64) -> Option<usize>
    requires { IsRising 0 made entries.now }
    ensures found { IfSome result (λ at. IsEntryAt entries.now at number) }
    ensures within { IfSome result (λ at. at < length entries.now) }
    ensures absent { IfNone result (place_in entries.now number ≡ None) }
{
    let from_front = number as usize;
    if is_entry_at(entries, from_front, number) {
        return Some(from_front);
    }
    let from_back = entries
        .len()
        .wrapping_sub(made.wrapping_sub(number) as usize);
    if is_entry_at(entries, from_back, number) {
        return Some(from_back);
    }
    let at = entries.partition_point(|entry| entry.number < number);
    if is_entry_at(entries, at, number) {
        return Some(at);
    }
    None
}

/// Whether the last entry is of an object that has ended.
fn is_last_ended(entries: &[Entry]) -> bool
    ensures { OnTrue result (IsLastEnded entries.now) }
{
    match entries.last() {
        Some(entry) => entry.object.is_none(),
        None => false,
    }
}

/// Leaves out the entries of objects that have ended behind the last live one.
pub(crate) fn trim(entries: &mut Vec<Entry>)
    ensures { KeepsObjects entries.old.items entries.new.items }
{
    while is_last_ended(entries) {
        entries.pop();
    }
}

/// Makes room for an entry, where that takes more memory than a `push`: in a full list, which is rid of the objects
/// that have ended first, and takes more memory where it is more than half full then.
pub(crate) fn make_room(entries: &mut Vec<Entry>) -> Result<(), AllocError>
    ensures { KeepsObjects entries.old.items entries.new.items }
{
    let room = entries.capacity();
    if entries.len() == room {
        entries.retain(|entry| entry.object.is_some());
        if entries.len() > room / 2 {
            entries.reserve(room)?;
        }
    }
    Ok(())
}
