//! The nesting of a text.

ghost use Rattle.std.specs.Prelude.{◌≤◌, IfOk, IfErr, length};
ghost use Rattle.c_lexer.specs.Limits.{text_limit};
ghost use Rattle.c_parser_nesting.specs.HasNesting.{HasNesting};
ghost use Rattle.c_parser.specs.Faults.{HasNoNesting};

use crate::fault::ParseFault;
use std::alloc::Global;

/// The nesting of a text of at most 4,194,304 bytes: the most constructs that stand in one another,
/// where each bracket, each operator, and each of the words `if`, `while`, `for`, `do`, `switch` and
/// `sizeof` adds to the segment that it stands in, and a segment ends behind a `;`, a `,` or a `}`.
///
/// # Errors
///
/// [`ParseFault::Lex`] with the first offset at which no token begins (C99 6.4), where there is one,
/// and [`ParseFault::NoMemory`].
pub fn nest(alloc: Global, text: &[u8]) -> Result<u32, ParseFault>
    requires { length text.now ≤ text_limit }
    ensures nesting { IfOk result (HasNesting text.now) }
    ensures fault { IfErr result (HasNoNesting text.now) }
{
    match c_parser_nesting::nest(alloc, text) {
        Ok(nesting) => Ok(nesting),
        Err(fault) => Err(ParseFault::of_scan(fault)),
    }
}
