//! The command `run`: the image of a C file is run.

ghost use Rattle.std.specs.Prelude.{◌≡◌, ◌↔◌, IfSome, IsTrue, option_map};
ghost use Rattle.alpha_isa.specs.Behave.{IsStack};
ghost use Rattle.bk_io.specs.Shelf.{is_due, after_call};
ghost use Rattle.call_outcomes.specs.FromFile.{file_bytes};
ghost use Rattle.call_outcomes.specs.Output.{file_faults_after, input_faults_after, output_faults_after};
ghost use Rattle.compile_calls.specs.Run.{Runs, EndsWithEnoughSteps, RunsMade};

use crate::images::image_of_file;
use bk_io::outside::{Files, Sink, Source};
use c_parser::laws::one_tree;
use call_images::run_image;
use call_outcomes::outcome::Outcome;
use call_words::compile_options::MachineLimits;
use compiler::Options;
use std::alloc::Global;

/// Compiles a C file and runs its image, on a stack that a machine takes, for so many steps at most. Where a program
/// of weight `w` ends within `n` turns on its input, `1_228_800 * w * (n + 1)` steps are enough. The input is what was
/// left, where that is told, and else there is such an input.
pub fn run<F: Files, I: Source, O: Sink>(
    alloc: Global,
    options: &Options,
    limits: MachineLimits,
    name: &str,
    files: &mut F,
    input: &mut I,
    out: &mut O,
) -> Outcome
    requires { IsStack limits.stack }
    ensures answer { Runs limits (file_bytes (F.told files.old) name.now) result
        (record { left = I.left input.old; made = I.made input.old; taken = O.taken out.old })
        (record { left = I.left input.new; made = I.made input.new; taken = O.taken out.new }) }
    ensures enough { EndsWithEnoughSteps limits (file_bytes (F.told files.old) name.now) result
        (record { left = I.left input.old; made = I.made input.old; taken = O.taken out.old })
        (record { left = I.left input.new; made = I.made input.new; taken = O.taken out.new }) }
    ensures made { RunsMade options.now.allocator limits (file_bytes (F.told files.old) name.now) result
        (record { left = I.left input.old; made = I.made input.old; taken = O.taken out.old })
        (record { left = I.left input.new; made = I.made input.new; taken = O.taken out.new }) }
    ensures due { IfSome (F.told files.old) (λ shelf. (result ≡ Outcome.FileFault) ↔ IsTrue (is_due shelf name.now)) }
    ensures told { F.told files.new ≡ option_map after_call (F.told files.old) }
    ensures file_count { F.faults files.new ≡ file_faults_after result (F.faults files.old) }
    ensures input_count { I.faults input.new ≡ input_faults_after result (I.faults input.old) }
    ensures output_count { O.faults out.new ≡ output_faults_after result (O.faults out.old) }
{
    one_tree();
    match image_of_file(alloc, options, name, files) {
        Ok(image) => run_image(alloc, &image, limits, input, out),
        Err(outcome) => outcome,
    }
}
