//! The types of C values and objects (C99 6.2.5).

ghost use Rattle.std.specs.Prelude.{◌≡◌, ◌↔◌, IsTrue};

use bk_containers::{Box, Name, Seq};

/// A type. Functions are no values, so there is no type of functions here; an enum type is `int` (C99 6.7.2.2).
#[derive(Drop)]
pub enum CType {
    Void,
    /// An integer type: its bytes, which are 1, 2, 4 or 8, and whether it has negative values.
    Int { bytes: u8, signed: bool },
    Pointer(Box<CType>),
    /// An array with its number of elements.
    Array(Box<CType>, u64),
    /// The struct with this number in the unit.
    Struct(u32),
}

/// A struct (C99 6.7.2.1). What its members say of its size, its alignment and its depth is written down where it
/// is complete, and is 0 where it is not.
#[derive(Drop)]
pub struct StructDef {
    /// The tag, empty where there is none.
    pub tag: Name,
    /// Whether its members are known.
    pub complete: bool,
    /// The members in order.
    pub members: Seq<Member>,
    /// The size in bytes.
    pub size: u64,
    /// The alignment in bytes.
    pub align: u64,
    /// How deep its members nest: 1 more than the depth of the deepest one's type.
    pub depth: u64,
}

/// A member of a struct.
#[derive(Drop)]
pub struct Member {
    /// The name.
    pub name: Name,
    /// The type.
    pub ty: CType,
    /// Its place in the struct, in bytes from the start.
    pub offset: u64,
}

/// Whether two types are one type.
pub fn is_same_type(a: &CType, b: &CType) -> bool
    ensures { IsTrue result ↔ (a.now ≡ b.now) }
{
    match (a, b) {
        (CType::Void, CType::Void) => true,
        (
            CType::Int { bytes, signed },
            CType::Int {
                bytes: size,
                signed: sign,
            },
        ) => bytes == size && signed == sign,
        (CType::Pointer(target), CType::Pointer(other)) => is_same_type(target, other),
        (CType::Array(element, length), CType::Array(other, size)) => length == size
            && is_same_type(element, other),
        (CType::Struct(number), CType::Struct(other)) => number == other,
        _ => false,
    }
}
