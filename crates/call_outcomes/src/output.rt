//! Putting bytes into a sink.

ghost use Rattle.std.specs.Prelude.{◌≡◌, ◌≢◌, ◌⊎◌, ◌++◌, IfSome};
ghost use Rattle.bk_io.specs.Outside.{faults_after, TakesSlice};
ghost use Rattle.call_outcomes.specs.Output.{PutsBytes, output_faults_after};

use crate::outcome::Outcome;
use bk_io::outside::{Failed, Sink};

/// Puts two runs of bytes, one after the other, up to the first put that fails.
fn put_both<S: Sink>(sink: &mut S, first: &[u8], second: &[u8]) -> Result<(), Failed>
    ensures taken { TakesSlice result (first.now ++ second.now) (S.taken sink.old) (S.taken sink.new) }
    ensures count { S.faults sink.new ≡ faults_after result (S.faults sink.old) }
{
    match sink.put_slice(first) {
        Ok(()) => sink.put_slice(second),
        Err(failed) => Err(failed),
    }
}

/// Puts three runs of bytes, one after the other, up to the first put that fails.
pub fn put_three<S: Sink>(
    sink: &mut S,
    first: &[u8],
    second: &[u8],
    third: &[u8],
) -> Result<(), Failed>
    ensures taken { TakesSlice result (first.now ++ (second.now ++ third.now)) (S.taken sink.old) (S.taken sink.new) }
    ensures count { S.faults sink.new ≡ faults_after result (S.faults sink.old) }
{
    match sink.put_slice(first) {
        Ok(()) => put_both(sink, second, third),
        Err(failed) => Err(failed),
    }
}

/// Puts bytes. The outcome is this one, if they were put.
pub fn write_bytes<S: Sink>(sink: &mut S, bytes: &[u8], done: Outcome) -> Outcome
    ensures answer { PutsBytes done bytes.now result (S.taken sink.old) (S.taken sink.new) }
    ensures count { done ≢ Outcome.WriteFault → S.faults sink.new ≡ output_faults_after result (S.faults sink.old) }
    ensures either { done ≢ Outcome.WriteFault → (result ≡ done) ⊎ (result ≡ Outcome.WriteFault) }
{
    match sink.put_slice(bytes) {
        Ok(()) => done,
        Err(_) => Outcome::WriteFault,
    }
}

/// Lets go all that a sink holds. The outcome is this one, unless a write fails, or failed and was not reported.
pub fn finish_output<S: Sink>(sink: &mut S, done: Outcome) -> Outcome
    ensures told { IfSome (S.taken sink.old) (λ _. (result ≡ done) × (sink.new ≡ sink.old)) }
    ensures count { done ≢ Outcome.WriteFault → S.faults sink.new ≡ output_faults_after result (S.faults sink.old) }
    ensures either { (result ≡ done) ⊎ (result ≡ Outcome.WriteFault) }
{
    match sink.finish() {
        Ok(()) => done,
        Err(_failed) => Outcome::WriteFault,
    }
}
