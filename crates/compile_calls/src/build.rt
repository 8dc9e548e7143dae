//! The command `build`: a C file in, the bytes of its image out.

ghost use Rattle.std.specs.Prelude.{◌≡◌, ◌≢◌, ◌↔◌, IfSome, IsTrue, option_map};
ghost use Rattle.bk_io.specs.Shelf.{is_due, after_call};
ghost use Rattle.call_outcomes.specs.FromFile.{file_bytes};
ghost use Rattle.call_outcomes.specs.Output.{file_faults_after, output_faults_after};
ghost use Rattle.compile_calls.specs.Build.{Builds, BuildsMade};

use crate::images::image_of_file;
use bk_io::outside::{Files, Sink};
use call_images::write_image;
use call_outcomes::outcome::Outcome;
use compiler::Options;
use std::alloc::Global;

/// Compiles a C file and writes the bytes of its image.
pub fn build<F: Files, O: Sink>(
    alloc: Global,
    options: &Options,
    name: &str,
    files: &mut F,
    out: &mut O,
) -> Outcome
    ensures answer { Builds (file_bytes (F.told files.old) name.now) result (O.taken out.old) (O.taken out.new) }
    ensures made { BuildsMade options.now.allocator (file_bytes (F.told files.old) name.now) result
        (O.taken out.old) (O.taken out.new) }
    ensures due { IfSome (F.told files.old) (λ shelf. (result ≡ Outcome.FileFault) ↔ IsTrue (is_due shelf name.now)) }
    ensures told { F.told files.new ≡ option_map after_call (F.told files.old) }
    ensures file_count { F.faults files.new ≡ file_faults_after result (F.faults files.old) }
    ensures output_count { O.faults out.new ≡ output_faults_after result (O.faults out.old) }
    ensures reads_none { result ≢ Outcome.InputFault }
{
    match image_of_file(alloc, options, name, files) {
        Ok(image) => write_image(alloc, &image, out),
        Err(outcome) => outcome,
    }
}
