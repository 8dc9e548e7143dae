//! Why a text was not read.

ghost use Rattle.std.specs.Prelude.{◌≡◌, IfOk, IfErr, Ok, Some};
ghost use Rattle.bk_memory.specs.Shortage.{MemoryIsShort};
ghost use Rattle.alpha_text.specs.declared.fault.TextFault.TheVariants.{NoMemory};
ghost use Rattle.alpha_text.specs.model.Faults.{IsFaultOf};

use bk_memory::memory_is_short;
use std::alloc::{AllocError, AllocFailed};
use thiserror::Error;

/// Why a text was not read as an assembly.
#[derive(Clone, Copy, Debug, PartialEq, Eq, Error)]
pub enum TextFault {
    /// The line with this number, from 1 on, is in no form where it stands. Where a line is missing, or bytes
    /// stand behind the last line feed, it is the number of lines plus one.
    #[error("no assembly at line {line}")]
    Line { line: u64 },
    /// Each line is in its form, and there are too many bytes of data, so many.
    #[error("{counted} bytes of data")]
    Data { counted: u64 },
    /// There was no memory.
    #[error("there was no memory")]
    NoMemory,
}

impl From<AllocError> for TextFault {
    ghost from_gives = { λ _ fault. (fault ≡ NoMemory) × MemoryIsShort };

    fn from(error: AllocError) -> TextFault {
        memory_is_short(error);
        TextFault::NoMemory
    }
}

impl<T: Drop> From<AllocFailed<T>> for TextFault {
    ghost from_gives = { λ _ fault. (fault ≡ NoMemory) × MemoryIsShort };

    fn from(failed: AllocFailed<T>) -> TextFault {
        TextFault::from(AllocError::from(failed))
    }
}

/// What a line says. Where it says nothing that may stand there, the fault is its number, and else the want of
/// memory that was met.
pub(crate) fn said_or_fault<T>(
    found: Result<Option<T>, AllocError>,
    line: u64,
) -> Result<T, TextFault>
    ensures said { IfOk result (λ t. found ≡ Ok (Some t)) }
    ensures fault { IfErr result (λ fault. IsFaultOf found line fault) }
{
    match found {
        Ok(Some(said)) => Ok(said),
        Ok(None) => Err(TextFault::Line { line }),
        Err(error) => Err(TextFault::from(error)),
    }
}
