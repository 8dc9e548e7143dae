//! How a call of the compiler ends: its outcome, the line that it writes, and the status of the process.

ghost use Rattle.std.specs.Prelude.{◌≡◌};
ghost use Rattle.bk_memory.specs.Shortage.{MemoryIsShort};
ghost use Rattle.bk_io.specs.Outside.{faults_after, TakesSlice};
ghost use Rattle.call_outcomes.specs.declared.outcome.Outcome.TheVariants.{NoMemory};
ghost use Rattle.call_outcomes.specs.Outcome.{line_of, typing_words, words_of, outcome_number, line_with, exit_status};
ghost use Rattle.call_outcomes.specs.Output.{TookUnlessFault};

use crate::output::put_three;
use bk_io::outside::{Failed, Sink};
use bk_memory::memory_is_short;
use c_typing_faults::Kind;
use itoa::Buffer;
use std::alloc::AllocError;
use thiserror::Error;

/// Why a C text was refused.
#[derive(Clone, Copy, Debug, PartialEq, Eq, Error)]
pub enum SourceFault {
    /// No token begins at this offset, in bytes (C99 6.4).
    #[error("no token begins at offset {at}")]
    Lex { at: u32 },
    /// The tokens are refused from the one at this offset on, in bytes, or at the text's end (C99 6.9).
    #[error("the token at offset {at} is refused")]
    Syntax { at: u32 },
    /// The first of the typing faults of the text: its kind, and its offset, in bytes (C99 6.5 to 6.9).
    #[error("{kind:?} at offset {at}")]
    Typing { at: u32, kind: Kind },
}

/// What of a text is beyond its limit.
#[derive(Clone, Copy, Debug, PartialEq, Eq)]
pub enum Which {
    /// Its bytes.
    Text,
    /// How deep its constructs nest.
    Nesting,
    /// The weight of its unit.
    Weight,
    /// The bytes of its data, or of the memory locals of one of its functions.
    Data,
}

/// How a call of the compiler ended.
#[derive(Clone, Copy, Debug, PartialEq, Eq)]
pub enum Outcome {
    /// The image was written.
    Built,
    /// The text of a pass was written.
    Printed,
    /// The program ended with a status.
    Ran { status: u8 },
    /// The program trapped with a code.
    Trapped { code: u64 },
    /// There is nothing that the machine can do at this address.
    Stuck { pc: u64 },
    /// The program is not at its end after so many steps.
    Budget { steps: u64 },
    /// The words are none that the compiler takes.
    Usage,
    /// The file could not be read.
    FileFault,
    /// The input could not be read.
    InputFault,
    /// The output could not be written.
    WriteFault,
    /// The text is no program.
    Refused(SourceFault),
    /// Something of the text is beyond its limit. This much of it was counted.
    Limit { which: Which, counted: u64 },
    /// The bytes are no image. They stop being one at this place, in bytes.
    BadImage { at: u64 },
    /// The text is no assembly. This line of it, from 1 on, is the first that is wrong.
    BadAsm { line: u64 },
    /// There was no memory.
    NoMemory,
}

impl From<AllocError> for Outcome {
    ghost from_gives = { λ _ outcome. (outcome ≡ NoMemory) × MemoryIsShort };

    fn from(error: AllocError) -> Outcome {
        memory_is_short(error);
        Outcome::NoMemory
    }
}

/// The status of the process for an outcome.
pub fn exit_code(outcome: &Outcome) -> u8
    ensures { result ≡ exit_status outcome.now }
{
    match outcome {
        Outcome::Built | Outcome::Printed => 0,
        Outcome::Ran { status } => *status,
        Outcome::Usage => 64,
        Outcome::Refused(_) => 65,
        Outcome::FileFault => 66,
        Outcome::Limit { .. } => 69,
        Outcome::NoMemory => 71,
        Outcome::WriteFault => 73,
        Outcome::InputFault => 74,
        Outcome::Budget { .. } => 75,
        Outcome::BadImage { .. } => 76,
        Outcome::BadAsm { .. } => 77,
        Outcome::Trapped { .. } => 134,
        Outcome::Stuck { .. } => 139,
    }
}

/// Puts the line of an outcome, which takes no memory. A failed put ends the line there.
pub fn put_line<S: Sink>(sink: &mut S, outcome: &Outcome)
    ensures { TookUnlessFault (line_of outcome.now)
        (S.taken sink.old) (S.taken sink.new) (S.faults sink.old) (S.faults sink.new) }
{
    let said = words_of(outcome).as_bytes();
    let _ended = match number(outcome) {
        None => sink.put_slice(said),
        Some(n) => put_with_number(sink, said, n),
    };
}

/// Puts words, a number and a line feed.
fn put_with_number<S: Sink>(sink: &mut S, said: &[u8], n: u64) -> Result<(), Failed>
    ensures taken { TakesSlice result (line_with said.now n) (S.taken sink.old) (S.taken sink.new) }
    ensures count { S.faults sink.new ≡ faults_after result (S.faults sink.old) }
{
    let mut buffer = Buffer::new();
    put_three(sink, said, buffer.format(n).as_bytes(), b"\n")
}

/// What is said of a typing fault, before its place.
fn typing_words(kind: Kind) -> &'static str
    ensures { result.now ≡ typing_words kind }
{
    match kind {
        Kind::MissingMain => "msc: MissingMain at ",
        Kind::UnknownName => "msc: UnknownName at ",
        Kind::Redeclared => "msc: Redeclared at ",
        Kind::NotDefined => "msc: NotDefined at ",
        Kind::BadType => "msc: BadType at ",
        Kind::NotConstant => "msc: NotConstant at ",
        Kind::BadOperand => "msc: BadOperand at ",
        Kind::NotAssignable => "msc: NotAssignable at ",
        Kind::BadConversion => "msc: BadConversion at ",
        Kind::NotFunction => "msc: NotFunction at ",
        Kind::BadCall => "msc: BadCall at ",
        Kind::NoMember => "msc: NoMember at ",
        Kind::BadLabel => "msc: BadLabel at ",
        Kind::BadJump => "msc: BadJump at ",
        Kind::BadReturn => "msc: BadReturn at ",
        Kind::BadLiteral => "msc: BadLiteral at ",
        Kind::BadInit => "msc: BadInit at ",
    }
}

/// What is said of an outcome: its whole line, or what stands before its number.
fn words_of(outcome: &Outcome) -> &'static str
    ensures { result.now ≡ words_of outcome.now }
{
    match outcome {
        Outcome::Built | Outcome::Printed | Outcome::Ran { .. } => "",
        Outcome::Usage => "msc: usage\n",
        Outcome::Refused(SourceFault::Lex { .. }) => "msc: lex at ",
        Outcome::Refused(SourceFault::Syntax { .. }) => "msc: syntax at ",
        Outcome::Refused(SourceFault::Typing { kind, .. }) => typing_words(*kind),
        Outcome::FileFault => "msc: file\n",
        Outcome::Limit {
            which: Which::Text,
            ..
        } => "msc: limit text ",
        Outcome::Limit {
            which: Which::Nesting,
            ..
        } => "msc: limit nesting ",
        Outcome::Limit {
            which: Which::Weight,
            ..
        } => "msc: limit weight ",
        Outcome::Limit {
            which: Which::Data,
            ..
        } => "msc: limit data ",
        Outcome::NoMemory => "msc: memory\n",
        Outcome::WriteFault => "msc: write\n",
        Outcome::InputFault => "msc: input\n",
        Outcome::Budget { .. } => "msc: budget ",
        Outcome::BadImage { .. } => "msc: image at ",
        Outcome::BadAsm { .. } => "msc: assembly line ",
        Outcome::Trapped { .. } => "msc: trap ",
        Outcome::Stuck { .. } => "msc: stuck at ",
    }
}

/// The number at the end of an outcome's line.
fn number(outcome: &Outcome) -> Option<u64>
    ensures { result ≡ outcome_number outcome.now }
{
    match outcome {
        Outcome::Trapped { code } => Some(*code),
        Outcome::Stuck { pc } => Some(*pc),
        Outcome::Budget { steps } => Some(*steps),
        Outcome::BadImage { at } => Some(*at),
        Outcome::BadAsm { line } => Some(*line),
        Outcome::Limit { counted, .. } => Some(*counted),
        Outcome::Refused(SourceFault::Lex { at }) => Some(u64::from(*at)),
        Outcome::Refused(SourceFault::Syntax { at }) => Some(u64::from(*at)),
        Outcome::Refused(SourceFault::Typing { at, .. }) => Some(u64::from(*at)),
        _ => None,
    }
}
