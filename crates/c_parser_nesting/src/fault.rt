//! Why a text gives no tokens.

ghost use Rattle.std.specs.Prelude.{◌≡◌};
ghost use Rattle.bk_memory.specs.Shortage.{MemoryIsShort};
ghost use Rattle.c_parser_nesting.specs.declared.fault.ScanFault.TheVariants.{Lex, NoMemory};

use bk_memory::memory_is_short;
use c_lexer::LexFault;
use std::alloc::{AllocError, AllocFailed};
use thiserror::Error;

/// Why a text gives no tokens.
#[derive(Clone, Copy, Debug, PartialEq, Eq, Error)]
pub enum ScanFault {
    /// The offset `at` is the first, past whole pieces, at which no token begins (C99 6.4).
    #[error("no token begins at offset {at}")]
    Lex { at: u32 },
    #[error("out of memory")]
    NoMemory,
}

impl From<LexFault> for ScanFault {
    ghost from_gives = { λ f e. e ≡ Lex f.at };

    fn from(fault: LexFault) -> ScanFault {
        ScanFault::Lex { at: fault.at }
    }
}

impl From<AllocError> for ScanFault {
    ghost from_gives = { λ _ e. (e ≡ NoMemory) × MemoryIsShort };

    fn from(error: AllocError) -> ScanFault {
        memory_is_short(error);
        ScanFault::NoMemory
    }
}

impl<T: Drop> From<AllocFailed<T>> for ScanFault {
    ghost from_gives = { λ _ e. (e ≡ NoMemory) × MemoryIsShort };

    fn from(failed: AllocFailed<T>) -> ScanFault {
        ScanFault::from(AllocError::from(failed))
    }
}
