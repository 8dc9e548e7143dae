//! Why nothing is compiled of a text.

ghost use Rattle.std.specs.Prelude.{◌≡◌};
ghost use Rattle.bk_memory.specs.Shortage.{MemoryIsShort};
ghost use Rattle.compiler_front_end.specs.declared.fault.CompileFault.TheVariants.{NoMemory};
ghost use Rattle.compiler_front_end.specs.model.Causes.{fault_of_parse, fault_of_check};

use bk_memory::memory_is_short;
use c_parser::ParseFault;
use c_types::TypeFault;
use call_outcomes::outcome::{SourceFault, Which};
use std::alloc::AllocError;
use thiserror::Error;

/// Why nothing is compiled of a text.
#[derive(Clone, Copy, Debug, PartialEq, Eq, Error)]
pub enum CompileFault {
    /// The text is no program (C99 6.4 to 6.9).
    #[error("{0}")]
    Source(SourceFault),
    /// Something of the text is beyond its limit. This much of it was counted.
    #[error("{which:?} is beyond its limit with {counted}")]
    Limit { which: Which, counted: u64 },
    /// Memory is short.
    #[error("out of memory")]
    NoMemory,
}

impl From<AllocError> for CompileFault {
    ghost from_gives = { λ _ fault. (fault ≡ NoMemory) × MemoryIsShort };

    fn from(error: AllocError) -> CompileFault {
        memory_is_short(error);
        CompileFault::NoMemory
    }
}

impl From<ParseFault> for CompileFault {
    ghost from_gives = { λ of fault. fault ≡ fault_of_parse of };

    fn from(fault: ParseFault) -> CompileFault {
        match fault {
            ParseFault::Lex { at } => CompileFault::Source(SourceFault::Lex { at }),
            ParseFault::Nesting { counted } => CompileFault::Limit {
                which: Which::Nesting,
                counted: u64::from(counted),
            },
            ParseFault::Syntax { at } => CompileFault::Source(SourceFault::Syntax { at }),
            ParseFault::NoMemory => CompileFault::NoMemory,
        }
    }
}

impl From<TypeFault> for CompileFault {
    ghost from_gives = { λ of fault. fault ≡ fault_of_check of };

    fn from(fault: TypeFault) -> CompileFault {
        match fault {
            TypeFault::Typing { at, kind } => CompileFault::Source(SourceFault::Typing {
                at,
                kind,
            }),
            TypeFault::NoMemory => CompileFault::NoMemory,
        }
    }
}
