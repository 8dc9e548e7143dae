//! Reading a file.

ghost use Rattle.std.specs.Prelude.{◌≡◌, ◌↔◌, IfOk, IfErr, IfSome, IsErrOf, IsTrue, option_map};
ghost use Rattle.bk_io.specs.Shelf.{is_due, file_of, after_call};
ghost use Rattle.call_outcomes.specs.FromFile.{IsFront, IsCause};
ghost use Rattle.call_outcomes.specs.Output.{file_faults_unless};
ghost use Rattle.call_outcomes.specs.model.Causes as spec;

use crate::outcome::Outcome;
use bk_io::outside::{FileFault, Files};
use std::alloc::Global;

/// The outcome where a file is not read.
fn outcome_of_file_fault(fault: FileFault) -> Outcome
    ensures { result ≡ spec.outcome_of_file_fault fault }
{
    match fault {
        FileFault::Failed => Outcome::FileFault,
        FileFault::NoMemory => Outcome::NoMemory,
    }
}

/// Reads at most `limit` bytes of a file.
///
/// # Errors
///
/// [`Outcome::FileFault`], exactly where the read is due to fail, where the files tell that; and
/// [`Outcome::NoMemory`].
#[tactic(auto, using(crate::proofs::Causes::file_cause))]
pub fn read_file<F: Files>(
    alloc: Global,
    files: &mut F,
    name: &str,
    limit: u64,
) -> Result<Vec<u8>, Outcome>
    ensures text { IfOk result
        (λ text. IfSome (F.told files.old) (λ shelf. IsFront limit (file_of shelf name.now) text.items)) }
    ensures cause { IfErr result (IsCause (λ _. ⊥)) }
    ensures due { IfSome (F.told files.old)
        (λ shelf. IsErrOf result Outcome.FileFault ↔ IsTrue (is_due shelf name.now)) }
    ensures told { F.told files.new ≡ option_map after_call (F.told files.old) }
    ensures count { F.faults files.new ≡ file_faults_unless result (F.faults files.old) }
{
    let mut text = Vec::new(alloc);
    match files.read(name, &mut text, limit) {
        Ok(_) => Ok(text),
        Err(fault) => Err(outcome_of_file_fault(fault)),
    }
}
