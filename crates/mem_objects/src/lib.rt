//! Objects of static storage: what each holds at the start of a program, and how they lie in its data.
//!
//! Contracts see a list of these objects as the list of records that `specs/Globals.antt` speaks of.
#![tactic(auto)]

ghost use Rattle.std.specs.Prelude.{◌≡◌, ◌+◌, ◌-◌, ◌^◌, ◌<◌, min};
ghost use Rattle.mem_objects.specs.Layout.{place_after, data_end};

mod copies;

use bk_containers::{Name, Seq};
pub use copies::copy_objects;

/// The most bytes of one object of static storage, of all of them together, and of the memory locals of a function.
pub const MOST_DATA: u64 = 67_108_864;

/// What a byte of an object holds at the start: a byte, or a part of the address of an object of static storage
/// with a number of bytes added to it.
#[derive(Clone, Copy, Debug, PartialEq, Eq)]
pub enum DataCell {
    /// A byte of a number or a character.
    Byte(u8),
    /// A byte of an address, the least first: that of the object numbered `global`, moved by `plus` bytes. `part`
    /// is the byte's number, from 0 to 7.
    AddressPart { global: u32, plus: u64, part: u8 },
}

/// An object of static storage (C99 6.2.4): a global, or the text of a string literal, which has no name.
#[derive(Drop)]
pub struct DataObject {
    /// The name, empty for a string literal.
    pub name: Name,
    /// The bytes that it takes.
    pub size: u64,
    /// The alignment of its type, in bytes.
    pub align: u32,
    /// Its place in the data, in bytes from the start.
    pub offset: u64,
    /// Whether a program may write it.
    pub writable: bool,
    /// What its first bytes hold. All bytes past these are zero.
    pub cells: Seq<DataCell>,
}

/// The place at which the next object lies where the one before it ends at `end`: the next multiple of 8.
pub fn next_place(end: u64) -> u64
    requires { end + 8 < 2 ^ 64 }
    ensures { result ≡ place_after end }
{
    (end + 7) / 8 * 8
}

/// The end of the data in bytes: that of the last object, or 0 where there is none. The sum stands still at the
/// greatest number of 64 bits.
pub fn data_end(globals: &[DataObject]) -> u64
    ensures { result ≡ min (data_end globals.now) (2 ^ 64 - 1) }
{
    match globals.last() {
        None => 0,
        Some(object) => object.offset.saturating_add(object.size),
    }
}
