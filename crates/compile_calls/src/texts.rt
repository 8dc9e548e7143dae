//! A text is compiled.

ghost use Rattle.std.specs.Prelude.{◌≡◌, ◌≤◌, length, IfOk, IfErr, OnOk, Some};
ghost use Rattle.c_lexer.specs.Limits.{text_limit};
ghost use Rattle.call_outcomes.specs.FromFile.{IsCause};
ghost use Rattle.compile_calls.specs.Built.{IsBuilt};
ghost use Rattle.compile_calls.specs.Compile.{RefusesText};
ghost use Rattle.compile_calls.specs.model.Causes.{outcome_of_compile_fault, IsNoFault};

use c_lexer::TEXT_LIMIT;
use call_outcomes::outcome::{Outcome, Which};
use compiler::compile::compile;
use compiler::{Built, CompileFault, Options};
use std::alloc::Global;

/// How many bytes of a C file are read: one more than a text may have.
pub(crate) const SOURCE_LIMIT: u64 = TEXT_LIMIT as u64 + 1;

/// The outcome where nothing is compiled of a text.
pub(crate) fn outcome_of_fault(fault: CompileFault) -> Outcome
    ensures { result ≡ outcome_of_compile_fault fault }
{
    match fault {
        CompileFault::Source(source) => Outcome::Refused(source),
        CompileFault::Limit { which, counted } => Outcome::Limit { which, counted },
        CompileFault::NoMemory => Outcome::NoMemory,
    }
}

/// Whether a text has as many bytes as it may.
pub(crate) fn within_limit(text: &[u8]) -> Result<(), Outcome>
    ensures low { OnOk result (length text.now ≤ text_limit) }
    ensures cause { IfErr result (IsCause (RefusesText (Some text.now))) }
    ensures no_fault { IfErr result IsNoFault }
{
    if text.len() as u64 >= SOURCE_LIMIT {
        return Err(Outcome::Limit {
            which: Which::Text,
            counted: SOURCE_LIMIT,
        });
    }
    Ok(())
}

/// What is made of a text.
///
/// # Errors
///
/// What each command answers for a text of which nothing is made: the limit of its bytes, and then as
/// [`compile`] has them.
#[tactic(auto, using(crate::proofs::Causes::compile_cause, crate::proofs::Causes::no_compile_fault))]
pub(crate) fn compile_text(alloc: Global, text: &[u8], options: &Options) -> Result<Built, Outcome>
    ensures built { IfOk result (IsBuilt text.now options.now.allocator) }
    ensures cause { IfErr result (IsCause (RefusesText (Some text.now))) }
    ensures no_fault { IfErr result IsNoFault }
{
    match within_limit(text) {
        Ok(()) => {}
        Err(outcome) => return Err(outcome),
    }
    match compile(alloc, text, options) {
        Ok(built) => Ok(built),
        Err(fault) => Err(outcome_of_fault(fault)),
    }
}
