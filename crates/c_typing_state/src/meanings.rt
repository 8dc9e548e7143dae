//! What names mean.

use bk_containers::Seq;
use c_typed_tree::{CType, Callee};
use c_typing_rules::c_typing_declared_types::DeclaredType;

/// What a name means that is no tag and no member (C99 6.2.3).
#[derive(Drop)]
pub enum NameMeaning {
    /// Its declaration has a fault.
    Faulty,
    /// A function or an object that the unit never defines, by its number among these.
    Undefined(u32),
    /// A local or parameter, by its number in the function.
    Local {
        number: u32,
        ty: CType,
    },
    /// An object of static storage, by its number in the unit.
    Object {
        number: u32,
        ty: CType,
    },
    /// An enumeration constant, with its value as a word of the type `int`.
    Constant(u64),
    Function {
        callee: Callee,
        result: CType,
        parameters: Seq<CType>,
    },
    /// A typedef name.
    Typedef(DeclaredType),
}

/// What a tag means (C99 6.7.2.3).
#[derive(Clone, Copy, Debug, PartialEq, Eq)]
pub enum Tag {
    /// The struct with this number.
    Struct(u32),
    Enum,
}

/// A use of what the unit never defines, at its name.
#[derive(Clone, Copy, Debug, PartialEq, Eq)]
pub struct Use {
    /// The number of what is used, among what is never defined.
    pub number: u32,
    pub at: u32,
}

/// A struct without a tag, at its word.
#[derive(Clone, Copy, Debug, PartialEq, Eq)]
pub struct UntaggedStruct {
    pub at: u32,
    /// The number of the struct.
    pub number: u32,
}
