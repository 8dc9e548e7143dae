//! A text that is made, compiled and run.

ghost use Rattle.std.specs.Prelude.{◌≡◌, ◌≢◌, ℕ, List, length, string_bytes, IfOk};
ghost use Rattle.alpha_isa.specs.Behave.{IsStack};
ghost use Rattle.call_outcomes.specs.Output.{output_faults_after};
ghost use Rattle.compile_calls.specs.Print.{WritesText};
ghost use Rattle.compile_calls.specs.Summary.{summary_text};
ghost use Rattle.compile_calls.specs.Generate.{Generates, RunsGenerated, RunsTextOf};

use crate::images::image_of_text;
use crate::summary::{Summary, put_summary};
use alpha_isa::image::Image;
use alpha_run::ending::Ending;
use alpha_run::machine::Machine;
use bk_io::empty::{EmptySource, NullSink};
use bk_io::outside::Sink;
use call_images::outcome_of;
use call_outcomes::outcome::Outcome;
use call_outcomes::output::write_bytes;
use call_words::compile_options::{Generation, MachineLimits};
use std::alloc::{AllocError, Global};
use work_gen::generate;

/// The lines of a summary.
fn summary_lines(alloc: Global, summary: Summary) -> Result<String, AllocError>
    ensures { IfOk result (λ lines. string_bytes lines ≡ summary_text summary) }
{
    let mut lines = String::new(alloc);
    put_summary(&mut lines, summary)?;
    Ok(lines)
}

/// Writes a summary, all of which is made before the first byte is put.
fn write_summary<O: Sink>(alloc: Global, summary: Summary, out: &mut O) -> Outcome
    ensures answer { WritesText (summary_text summary) result (O.taken out.old) (O.taken out.new) }
    ensures count { O.faults out.new ≡ output_faults_after result (O.faults out.old) }
    ensures no_file { result ≢ Outcome.FileFault }
    ensures no_input { result ≢ Outcome.InputFault }
    ensures asked { result ≢ Outcome.Usage }
{
    match summary_lines(alloc, summary) {
        Ok(lines) => write_bytes(out, lines.as_bytes(), Outcome::Printed),
        Err(error) => Outcome::from(error),
    }
}

/// Runs the image of a text on an empty input, forgets its output, and writes the summary where it ends with a status.
fn run_and_tell<O: Sink>(
    alloc: Global,
    text: usize,
    image: &Image,
    limits: MachineLimits,
    out: &mut O,
) -> Outcome
    requires { IsStack limits.stack }
    ensures answer { (bytes : List ℕ) → text ≡ length bytes →
        RunsGenerated limits bytes image.now result (O.taken out.old) (O.taken out.new) }
    ensures count { O.faults out.new ≡ output_faults_after result (O.faults out.old) }
    ensures no_file { result ≢ Outcome.FileFault }
    ensures no_input { result ≢ Outcome.InputFault }
    ensures asked { result ≢ Outcome.Usage }
{
    let mut machine = match Machine::load(alloc, image, limits.stack) {
        Ok(machine) => machine,
        Err(error) => return Outcome::from(error),
    };
    match machine.run(limits.budget, &mut EmptySource, &mut NullSink) {
        Ending::Done { status } => {
            let summary = Summary {
                text: text as u64,
                words: image.words.len() as u64,
                steps: machine.steps(),
                output: machine.written(),
                status,
            };
            write_summary(alloc, summary, out)
        }
        ending => outcome_of(ending, limits.budget),
    }
}

/// Compiles a text, runs its image and writes the summary.
fn compile_and_run<O: Sink>(
    alloc: Global,
    text: Vec<u8>,
    generation: &Generation,
    out: &mut O,
) -> Outcome
    requires { IsStack generation.now.limits.stack }
    ensures answer { RunsTextOf generation.now text.items result (O.taken out.old) (O.taken out.new) }
    ensures count { O.faults out.new ≡ output_faults_after result (O.faults out.old) }
    ensures no_file { result ≢ Outcome.FileFault }
    ensures no_input { result ≢ Outcome.InputFault }
    ensures asked { result ≢ Outcome.Usage }
{
    let length = text.len();
    match image_of_text(alloc, text, &generation.options) {
        Ok(image) => run_and_tell(alloc, length, &image, generation.limits, out),
        Err(outcome) => outcome,
    }
}

/// Makes the text of a seed and a size, compiles it, runs its image on an empty input, and writes the summary: the bytes
/// of the text, the words of the image, the steps of the run, the bytes of its output and its status, in a line each.
/// The run is on a stack that a machine takes, for so many steps at most; what it puts is forgotten.
///
/// The answer is [`Outcome::Printed`] where the run ended with a status, and else the run's, or why there is no image.
pub fn generate_and_run<O: Sink>(alloc: Global, generation: &Generation, out: &mut O) -> Outcome
    requires { IsStack generation.now.limits.stack }
    ensures answer { Generates generation.now result (O.taken out.old) (O.taken out.new) }
    ensures count { O.faults out.new ≡ output_faults_after result (O.faults out.old) }
    ensures no_file { result ≢ Outcome.FileFault }
    ensures no_input { result ≢ Outcome.InputFault }
    ensures asked { result ≢ Outcome.Usage }
{
    match generate(alloc, generation.seed, generation.size) {
        Ok(text) => compile_and_run(alloc, text, generation, out),
        Err(error) => Outcome::from(error),
    }
}
