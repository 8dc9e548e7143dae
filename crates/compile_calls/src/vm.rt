//! The command `vm`: the code of a C file over virtual registers is run.

ghost use Rattle.std.specs.Prelude.{◌≡◌, ◌≢◌, ◌↔◌, IfSome, IsTrue, option_map};
ghost use Rattle.bk_io.specs.Shelf.{is_due, after_call};
ghost use Rattle.call_outcomes.specs.FromFile.{file_bytes};
ghost use Rattle.call_outcomes.specs.Output.{file_faults_after, input_faults_after, output_faults_after};
ghost use Rattle.compile_calls.specs.Vm.{outcome_of_ending, RunsProgram, RunsText};

use crate::files::compile_file;
use bk_io::outside::{Files, Sink, Source};
use call_outcomes::outcome::Outcome;
use compiler::Options;
use std::alloc::Global;
use suifvm_ir::program::VmProgram;
use suifvm_run::{VmEnding, run_vm};

/// The outcome of a run of so many turns at most that ended so.
fn outcome_of(ending: VmEnding, turns: u64) -> Outcome
    ensures { result ≡ outcome_of_ending turns ending }
{
    match ending {
        VmEnding::Ended { status } => Outcome::Ran { status },
        VmEnding::Trapped { code } => Outcome::Trapped { code },
        VmEnding::Undefined { pc } => Outcome::Stuck { pc },
        VmEnding::Budget { .. } => Outcome::Budget { steps: turns },
        VmEnding::InputFault => Outcome::InputFault,
        VmEnding::WriteFault => Outcome::WriteFault,
        VmEnding::NoMemory => Outcome::NoMemory,
    }
}

/// Runs a program over the input and the output.
fn run_program<I: Source, O: Sink>(
    alloc: Global,
    program: &VmProgram,
    turns: u64,
    input: &mut I,
    out: &mut O,
) -> Outcome
    ensures answer { RunsProgram turns program.now result
        (record { left = I.left input.old; made = I.made input.old; taken = O.taken out.old })
        (record { left = I.left input.new; made = I.made input.new; taken = O.taken out.new }) }
    ensures no_file { result ≢ Outcome.FileFault }
    ensures input_count { I.faults input.new ≡ input_faults_after result (I.faults input.old) }
    ensures output_count { O.faults out.new ≡ output_faults_after result (O.faults out.old) }
{
    outcome_of(run_vm(alloc, program, input, out, turns), turns)
}

/// Compiles a C file and runs its code over virtual registers, for so many turns at most.
pub fn vm<F: Files, I: Source, O: Sink>(
    alloc: Global,
    options: &Options,
    turns: u64,
    name: &str,
    files: &mut F,
    input: &mut I,
    out: &mut O,
) -> Outcome
    ensures answer { RunsText options.now.allocator turns (file_bytes (F.told files.old) name.now) result
        (record { left = I.left input.old; made = I.made input.old; taken = O.taken out.old })
        (record { left = I.left input.new; made = I.made input.new; taken = O.taken out.new }) }
    ensures due { IfSome (F.told files.old) (λ shelf. (result ≡ Outcome.FileFault) ↔ IsTrue (is_due shelf name.now)) }
    ensures told { F.told files.new ≡ option_map after_call (F.told files.old) }
    ensures file_count { F.faults files.new ≡ file_faults_after result (F.faults files.old) }
    ensures input_count { I.faults input.new ≡ input_faults_after result (I.faults input.old) }
    ensures output_count { O.faults out.new ≡ output_faults_after result (O.faults out.old) }
{
    match compile_file(alloc, options, name, files) {
        Ok(built) => run_program(alloc, &built.vm, turns, input, out),
        Err(outcome) => outcome,
    }
}
