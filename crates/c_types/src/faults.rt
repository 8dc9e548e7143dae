//! Why a unit has no typed tree.

ghost use Rattle.std.specs.Prelude.{◌≡◌};
ghost use Rattle.bk_memory.specs.Shortage.{MemoryIsShort};
ghost use Rattle.c_types.specs.declared.faults.TypeFault.TheVariants.{NoMemory};

use bk_memory::memory_is_short;
use c_typing_faults::Kind;
use std::alloc::AllocError;
use thiserror::Error;

/// Why a unit has no typed tree.
#[derive(Clone, Copy, Debug, PartialEq, Eq, Error)]
pub enum TypeFault {
    /// The first of the faults of the unit: its kind, and its offset in the text.
    #[error("{kind:?} at offset {at}")]
    Typing { at: u32, kind: Kind },
    /// Memory is short.
    #[error("out of memory")]
    NoMemory,
}

impl From<AllocError> for TypeFault {
    ghost from_gives = { λ _ e. (e ≡ NoMemory) × MemoryIsShort };

    fn from(error: AllocError) -> TypeFault {
        memory_is_short(error);
        TypeFault::NoMemory
    }
}
