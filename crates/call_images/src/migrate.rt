//! The command `migrate`: an image in, the bytes of the same image in the version that is written out.

ghost use Rattle.std.specs.Prelude.{◌≡◌, ◌≢◌, ◌↔◌, IfSome, IsTrue, option_map};
ghost use Rattle.bk_io.specs.Shelf.{is_due, after_call};
ghost use Rattle.call_outcomes.specs.FromFile.{file_bytes};
ghost use Rattle.call_images.specs.MigrateImage.{Migrates, WritesMigrated};
ghost use Rattle.call_outcomes.specs.Output.{file_faults_after, output_faults_after};

use crate::files::image_in_file;
use crate::write::write_image;
use alpha_isa::image::Image;
use bk_io::outside::{Files, Sink};
use call_outcomes::outcome::Outcome;
use std::alloc::Global;

/// Reads an image of either version and writes it in version 2, with the zeros at the end of its data
/// counted and not written.
pub fn migrate<F: Files, O: Sink>(alloc: Global, name: &str, files: &mut F, out: &mut O) -> Outcome
    ensures answer { Migrates (file_bytes (F.told files.old) name.now) result (O.taken out.old) (O.taken out.new) }
    ensures due { IfSome (F.told files.old) (λ shelf. (result ≡ Outcome.FileFault) ↔ IsTrue (is_due shelf name.now)) }
    ensures told { F.told files.new ≡ option_map after_call (F.told files.old) }
    ensures file_count { F.faults files.new ≡ file_faults_after result (F.faults files.old) }
    ensures output_count { O.faults out.new ≡ output_faults_after result (O.faults out.old) }
    ensures reads_none { result ≢ Outcome.InputFault }
{
    match image_in_file(alloc, files, name) {
        Ok(image) => write_migrated(alloc, image, out),
        Err(outcome) => outcome,
    }
}

/// Writes the bytes of an image, with its zeros cut.
fn write_migrated<O: Sink>(alloc: Global, image: Image, out: &mut O) -> Outcome
    ensures answer { WritesMigrated image result (O.taken out.old) (O.taken out.new) }
    ensures count { O.faults out.new ≡ output_faults_after result (O.faults out.old) }
    ensures no_file { result ≢ Outcome.FileFault }
    ensures no_input { result ≢ Outcome.InputFault }
{
    let image = image.cut_zeros();
    write_image(alloc, &image, out)
}
