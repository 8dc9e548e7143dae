//! Jumps (C99 6.8.6).

ghost use Rattle.std.specs.Prelude.{◌≡◌};
ghost use Rattle.c_typing_state.specs.Checks.{Finds};
ghost use Rattle.c_typing_statement_rules.specs.Jumps as spec;

use c_typed_tree::TStmt;
use c_typing_faults::Kind;
use c_typing_state::{Notes, note};
use std::alloc::AllocError;

/// Whether a `break` stands in a loop or a `switch`, and a `continue` in a loop.
#[derive(Clone, Copy, Debug, PartialEq, Eq)]
pub struct Jumps {
    pub breaks: bool,
    pub continues: bool,
}

impl Jumps {
    /// Those in the body of a function.
    pub fn none() -> Jumps
        ensures { result ≡ spec.no_jumps }
    {
        Jumps {
            breaks: false,
            continues: false,
        }
    }

    /// Those in the body of a loop.
    pub fn in_loop() -> Jumps
        ensures { result ≡ spec.in_loop }
    {
        Jumps {
            breaks: true,
            continues: true,
        }
    }

    /// Those in a `switch` that stands where these are.
    pub fn in_switch(self) -> Jumps
        ensures { result ≡ spec.in_switch self }
    {
        Jumps {
            breaks: true,
            continues: self.continues,
        }
    }
}

fn bad_jump(notes: &mut Notes<'_>, at: u32) -> Result<Option<TStmt>, AllocError>
    ensures { Finds (spec.bad_jump at notes.old) result notes.new }
{
    note(notes, at, Kind::BadJump)?;
    Ok(None)
}

/// A `break`.
pub fn break_statement(
    notes: &mut Notes<'_>,
    jumps: Jumps,
    at: u32,
) -> Result<Option<TStmt>, AllocError>
    ensures { Finds (spec.break_statement jumps at notes.old) result notes.new }
{
    if jumps.breaks {
        return Ok(Some(TStmt::Break));
    }
    bad_jump(notes, at)
}

/// A `continue`.
pub fn continue_statement(
    notes: &mut Notes<'_>,
    jumps: Jumps,
    at: u32,
) -> Result<Option<TStmt>, AllocError>
    ensures { Finds (spec.continue_statement jumps at notes.old) result notes.new }
{
    if jumps.continues {
        return Ok(Some(TStmt::Continue));
    }
    bad_jump(notes, at)
}
