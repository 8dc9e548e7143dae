//! The types of registers and of memory.

/// The type of a virtual register. A word of 32 bits is held with its sign in the bits above it, `U32` too.
#[derive(Clone, Copy, Debug, PartialEq, Eq)]
pub enum VmType {
    S32,
    U32,
    S64,
    U64,
    /// A pointer.
    P64,
}

/// The type of what a load, a store or a conversion takes of a word or of memory.
#[derive(Clone, Copy, Debug, PartialEq, Eq)]
pub enum MemoryType {
    S8,
    U8,
    S16,
    U16,
    S32,
    U32,
    S64,
    U64,
    /// A pointer.
    P64,
}

/// The alignment of a copy, in bytes.
#[derive(Clone, Copy, Debug, PartialEq, Eq)]
pub enum Alignment {
    One,
    Two,
    Four,
    Eight,
}
