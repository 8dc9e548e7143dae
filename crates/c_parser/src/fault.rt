//! Why a text is not read.

ghost use Rattle.std.specs.Prelude.{◌≡◌};
ghost use Rattle.bk_memory.specs.Shortage.{MemoryIsShort};
ghost use Rattle.c_parser.specs.declared.fault.ParseFault.TheVariants.{NoMemory};
ghost use Rattle.c_parser.specs.model.Faults as faults;

use bk_memory::memory_is_short;
use c_parser_cursor::ParseStop;
use c_parser_nesting::ScanFault;
use std::alloc::AllocError;
use thiserror::Error;

/// Why a text is not read.
#[derive(Clone, Copy, Debug, PartialEq, Eq, Error)]
pub enum ParseFault {
    /// The offset `at` is the first, past whole pieces, at which no token begins (C99 6.4).
    #[error("no token begins at offset {at}")]
    Lex { at: u32 },
    /// The constructs nest deeper than is taken: `counted` is the nesting of the text.
    #[error("the constructs nest {counted} deep")]
    Nesting { counted: u32 },
    /// The grammar refuses the token at the offset `at`, or the end of the text there.
    #[error("the token at offset {at} is refused")]
    Syntax { at: u32 },
    /// Memory is short, or more constructs are open at once, or more nodes stand one under the other, than
    /// are taken.
    #[error("out of memory")]
    NoMemory,
}

impl From<AllocError> for ParseFault {
    ghost from_gives = { λ _ e. (e ≡ NoMemory) × MemoryIsShort };

    fn from(error: AllocError) -> ParseFault {
        memory_is_short(error);
        ParseFault::NoMemory
    }
}

impl ParseFault {
    /// Why a text that gives no tokens is not read.
    pub(crate) fn of_scan(fault: ScanFault) -> ParseFault
        ensures { result ≡ faults.of_scan fault }
    {
        match fault {
            ScanFault::Lex { at } => ParseFault::Lex { at },
            ScanFault::NoMemory => ParseFault::NoMemory,
        }
    }

    /// Why tokens are not read, where a reading has stopped at this offset.
    pub(crate) fn of_stop(fault: ParseStop, at: u32) -> ParseFault
        ensures { result ≡ faults.of_stop fault at }
    {
        match fault {
            ParseStop::Refused => ParseFault::Syntax { at },
            ParseStop::NoMemory => ParseFault::NoMemory,
        }
    }
}
