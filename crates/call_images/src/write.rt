//! The bytes of an image are written.

ghost use Rattle.std.specs.Prelude.{◌≡◌, ◌≢◌};
ghost use Rattle.call_outcomes.specs.Output.{output_faults_after};
ghost use Rattle.call_images.specs.WriteImage.{WritesImage};

use alpha_image::image_bytes;
use alpha_isa::image::Image;
use bk_io::outside::Sink;
use call_outcomes::outcome::Outcome;
use call_outcomes::output::write_bytes;
use std::alloc::Global;

/// Writes the bytes of an image, all of which are made before the first is put.
pub fn write_image<O: Sink>(alloc: Global, image: &Image, out: &mut O) -> Outcome
    ensures answer { WritesImage image.now result (O.taken out.old) (O.taken out.new) }
    ensures count { O.faults out.new ≡ output_faults_after result (O.faults out.old) }
    ensures no_file { result ≢ Outcome.FileFault }
    ensures no_input { result ≢ Outcome.InputFault }
{
    match image_bytes(alloc, image) {
        Ok(bytes) => write_bytes(out, bytes.as_slice(), Outcome::Built),
        Err(error) => Outcome::from(error),
    }
}
