//! An image is run.

ghost use Rattle.std.specs.Prelude.{◌≡◌, ◌≢◌};
ghost use Rattle.alpha_isa.specs.Behave.{IsStack};
ghost use Rattle.call_outcomes.specs.Output.{input_faults_after, output_faults_after};
ghost use Rattle.call_images.specs.RunImage.{outcome_of_ending, RunsImage};

use alpha_isa::image::Image;
use alpha_run::ending::Ending;
use alpha_run::machine::Machine;
use bk_io::outside::{Sink, Source};
use call_outcomes::outcome::Outcome;
use call_words::compile_options::MachineLimits;
use std::alloc::Global;

/// The outcome of a run of so many steps at most that ended so.
pub fn outcome_of(ending: Ending, budget: u64) -> Outcome
    ensures { result ≡ outcome_of_ending budget ending }
{
    match ending {
        Ending::Done { status } => Outcome::Ran { status },
        Ending::Trap { code } => Outcome::Trapped { code },
        Ending::Stuck { pc } => Outcome::Stuck { pc },
        Ending::Budget => Outcome::Budget { steps: budget },
        Ending::InputFault => Outcome::InputFault,
        Ending::WriteFault => Outcome::WriteFault,
    }
}

/// Runs an image over the input and the output, on a stack that a machine takes, for so many steps at most. The machine
/// is loaded before anything is read or put.
pub fn run_image<I: Source, O: Sink>(
    alloc: Global,
    image: &Image,
    limits: MachineLimits,
    input: &mut I,
    out: &mut O,
) -> Outcome
    requires { IsStack limits.stack }
    ensures answer { RunsImage limits image.now result
        (record { left = I.left input.old; made = I.made input.old; taken = O.taken out.old })
        (record { left = I.left input.new; made = I.made input.new; taken = O.taken out.new }) }
    ensures no_file { result ≢ Outcome.FileFault }
    ensures input_count { I.faults input.new ≡ input_faults_after result (I.faults input.old) }
    ensures output_count { O.faults out.new ≡ output_faults_after result (O.faults out.old) }
{
    match Machine::load(alloc, image, limits.stack) {
        Ok(mut machine) => outcome_of(machine.run(limits.budget, input, out), limits.budget),
        Err(error) => Outcome::from(error),
    }
}
