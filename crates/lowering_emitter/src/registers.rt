//! The types and registers in which values of C stand. No call takes memory.

ghost use Rattle.std.specs.Prelude.{◌≡◌, ◌+◌, ◌*◌, ◌^◌, ◌<◌};
ghost use Rattle.c_typed_tree.specs.View.{type_view};
ghost use Rattle.lowering_code.specs.Registers.{register_type, memory_type, type_place, temporary, value_register, address_register, bytes_register};

use c_typed_tree::CType;
use suifvm_ir::types::{MemoryType, VmType};

/// The type of the register in which a value stands.
#[tactic(auto, unfolding(c_typed_tree::specs::model::View::opens))]
pub fn register_type(ty: &CType) -> VmType
    ensures { result ≡ register_type (type_view ty.now) }
{
    match ty {
        CType::Void => VmType::S32,
        CType::Int { bytes, signed } => match (*bytes, *signed) {
            (8, true) => VmType::S64,
            (_, true) => VmType::S32,
            (8, false) => VmType::U64,
            (4, false) => VmType::U32,
            (_, false) => VmType::S32,
        },
        CType::Pointer(_) => VmType::P64,
        CType::Array(_, _) => VmType::P64,
        CType::Struct(_) => VmType::P64,
    }
}

/// The type by which a scalar is loaded and stored.
#[tactic(auto, unfolding(c_typed_tree::specs::model::View::opens))]
pub fn memory_type(ty: &CType) -> MemoryType
    ensures { result ≡ memory_type (type_view ty.now) }
{
    match ty {
        CType::Int { bytes, signed } => match (*bytes, *signed) {
            (8, true) => MemoryType::S64,
            (4, true) => MemoryType::S32,
            (2, true) => MemoryType::S16,
            (_, true) => MemoryType::S8,
            (8, false) => MemoryType::U64,
            (4, false) => MemoryType::U32,
            (2, false) => MemoryType::U16,
            (_, false) => MemoryType::U8,
        },
        CType::Void => MemoryType::P64,
        CType::Pointer(_) => MemoryType::P64,
        CType::Array(_, _) => MemoryType::P64,
        CType::Struct(_) => MemoryType::P64,
    }
}

fn type_place(ty: VmType) -> u32
    ensures { result ≡ type_place ty }
{
    match ty {
        VmType::S32 => 0,
        VmType::U32 => 1,
        VmType::S64 => 2,
        VmType::U64 => 3,
        VmType::P64 => 4,
    }
}

/// The registers of a function.
#[derive(Clone, Copy, Debug, PartialEq, Eq)]
pub struct Registers {
    /// The number of locals, which stand in the first registers.
    pub locals: u32,
}

impl Registers {
    /// The register of a type at a depth.
    pub fn temporary(self, depth: u32, ty: VmType) -> u32
        requires { self.locals + 5 * (depth + 1) < 2 ^ 32 }
        ensures { result ≡ temporary self.locals depth ty }
    {
        self.locals + 5 * depth + type_place(ty)
    }

    /// The register of a value of a type of C at a depth.
    pub fn value(self, depth: u32, ty: &CType) -> u32
        requires { self.locals + 5 * (depth + 1) < 2 ^ 32 }
        ensures { result ≡ value_register self.locals depth (type_view ty.now) }
    {
        self.temporary(depth, register_type(ty))
    }

    /// The register of an address at a depth.
    pub fn address(self, depth: u32) -> u32
        requires { self.locals + 5 * (depth + 1) < 2 ^ 32 }
        ensures { result ≡ address_register self.locals depth }
    {
        self.temporary(depth, VmType::P64)
    }

    /// The register of a number of bytes at a depth.
    pub fn bytes(self, depth: u32) -> u32
        requires { self.locals + 5 * (depth + 1) < 2 ^ 32 }
        ensures { result ≡ bytes_register self.locals depth }
    {
        self.temporary(depth, VmType::S64)
    }
}
