//! Pointers, values, cells and faults.

use thiserror::Error;

/// A pointer: an object and an offset in bytes from its first cell. Any pair is a pointer; whether it
/// may be used is judged when it is.
#[derive(Clone, Copy, Debug, PartialEq, Eq)]
pub struct Ptr {
    /// The number of the object: how many were made before it.
    pub object: u64,
    /// The offset in bytes, which may lie outside the object.
    pub offset: i64,
}

/// What a load gives and a store takes. The null pointer is `Word(0)`.
#[derive(Clone, Copy, Debug, PartialEq, Eq)]
pub enum Value {
    /// A number of 64 bits.
    Word(u64),
    /// A pointer.
    Address(Ptr),
    /// Nothing: no load gives it, and no store takes it.
    Unset,
}

/// What a cell of an object holds (C99 6.2.6.1).
#[derive(Clone, Copy, Debug, PartialEq, Eq)]
pub enum Cell {
    /// Nothing was written.
    Empty,
    /// A byte of a number.
    Byte(u8),
    /// A part of a pointer: its byte with this number, from 0 to 7.
    Part(Ptr, u8),
}

/// Why an access was refused. Where several hold, the first of this list is answered.
#[derive(Clone, Copy, Debug, PartialEq, Eq, Error)]
pub enum MemFault {
    /// The object was never made, or has ended (C99 6.2.4).
    #[error("the object was never made, or has ended")]
    NoObject,
    /// A byte lies outside the object (C99 6.5.6), or a copy overlaps itself (C99 6.5.16.1).
    #[error("a byte lies outside the object")]
    Outside,
    /// The offset is no multiple of what the access asks for (C99 6.3.2.3).
    #[error("the offset is not aligned")]
    Misaligned,
    /// The object may not be written, as that of a text (C99 6.4.5).
    #[error("the object may not be written")]
    ReadOnly,
    /// A cell that was read was never written (C99 6.7.8).
    #[error("a cell was never written")]
    Never,
    /// The cells are neither a number nor a whole pointer, as the load asks for (C99 6.2.6.1).
    #[error("a pointer was read in part, or as a number")]
    PartPointer,
}
