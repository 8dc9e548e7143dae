//! The command `exec`: an image of a file is run.

ghost use Rattle.std.specs.Prelude.{◌≡◌, ◌↔◌, IfSome, IsTrue, option_map};
ghost use Rattle.alpha_isa.specs.Behave.{IsStack};
ghost use Rattle.bk_io.specs.Shelf.{is_due, after_call};
ghost use Rattle.call_outcomes.specs.FromFile.{file_bytes};
ghost use Rattle.call_outcomes.specs.Output.{file_faults_after, input_faults_after, output_faults_after};
ghost use Rattle.call_images.specs.RunImage.{Executes};

use crate::files::image_in_file;
use crate::run::run_image;
use bk_io::outside::{Files, Sink, Source};
use call_outcomes::outcome::Outcome;
use call_words::compile_options::MachineLimits;
use std::alloc::Global;

/// Reads an image and runs it, on a stack that a machine takes, for so many steps at most.
pub fn exec<F: Files, I: Source, O: Sink>(
    alloc: Global,
    limits: MachineLimits,
    name: &str,
    files: &mut F,
    input: &mut I,
    out: &mut O,
) -> Outcome
    requires { IsStack limits.stack }
    ensures answer { Executes limits (file_bytes (F.told files.old) name.now) result
        (record { left = I.left input.old; made = I.made input.old; taken = O.taken out.old })
        (record { left = I.left input.new; made = I.made input.new; taken = O.taken out.new }) }
    ensures due { IfSome (F.told files.old) (λ shelf. (result ≡ Outcome.FileFault) ↔ IsTrue (is_due shelf name.now)) }
    ensures told { F.told files.new ≡ option_map after_call (F.told files.old) }
    ensures file_count { F.faults files.new ≡ file_faults_after result (F.faults files.old) }
    ensures input_count { I.faults input.new ≡ input_faults_after result (I.faults input.old) }
    ensures output_count { O.faults out.new ≡ output_faults_after result (O.faults out.old) }
{
    match image_in_file(alloc, files, name) {
        Ok(image) => run_image(alloc, &image, limits, input, out),
        Err(outcome) => outcome,
    }
}
