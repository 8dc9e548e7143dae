//! The words of the process, as the top call takes them.
#![tactic(auto)]

#[cfg(test)]
mod tests;

ghost use Rattle.std.specs.Prelude.{◌≡◌, IfErr};
ghost use Rattle.call_outcomes.specs.declared.outcome.Outcome.TheVariants.{NoMemory};

use call_outcomes::outcome::Outcome;
use std::alloc::Global;
use std::env::Args;
use std::io;
use std::io::ErrorKind;

/// The words that were read, the program's name first. None where one is not UTF-8: such words are none that the
/// compiler takes.
///
/// # Errors
///
/// [`Outcome::NoMemory`] where they were not read for another cause: the library has none but want of memory.
pub fn words_of(alloc: Global, read: io::Result<Args>) -> Result<Vec<String>, Outcome>
    ensures { IfErr result (λ outcome. outcome ≡ NoMemory) }
{
    match read {
        Ok(words) => match words.collect(alloc) {
            Ok(words) => Ok(words),
            Err(_) => Err(Outcome::NoMemory),
        },
        Err(error) => match error.kind() {
            ErrorKind::InvalidData => Ok(Vec::new(alloc)),
            _ => Err(Outcome::NoMemory),
        },
    }
}
