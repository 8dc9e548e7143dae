//! The image that a file holds.

ghost use Rattle.std.specs.Prelude.{◌≡◌, ◌↔◌, IfOk, IfErr, IfSome, IsErrOf, IsTrue, option_map};
ghost use Rattle.bk_io.specs.Shelf.{is_due, after_call};
ghost use Rattle.call_outcomes.specs.FromFile.{file_bytes, IsCause};
ghost use Rattle.call_outcomes.specs.Output.{file_faults_unless};
ghost use Rattle.call_images.specs.model.Causes as spec;
ghost use Rattle.call_images.specs.RunImage.{RefusesBytes, HoldsImage};

use alpha_image::{ImageFault, read_image};
use alpha_isa::image::Image;
use bk_io::outside::Files;
use call_outcomes::files::read_file;
use call_outcomes::outcome::Outcome;
use std::alloc::Global;

/// How many bytes of an image are read: one more than the longest image has.
const IMAGE_LIMIT: u64 = 1_140_850_713;

/// The outcome where bytes are not read as an image.
fn outcome_of_image_fault(fault: ImageFault) -> Outcome
    ensures { result ≡ spec.outcome_of_image_fault fault }
{
    match fault {
        ImageFault::BadImage { at } => Outcome::BadImage { at },
        ImageFault::NoMemory => Outcome::NoMemory,
    }
}

/// Reads a file as an image.
pub(crate) fn image_in_file<F: Files>(
    alloc: Global,
    files: &mut F,
    name: &str,
) -> Result<Image, Outcome>
    ensures image { IfOk result (HoldsImage (file_bytes (F.told files.old) name.now)) }
    ensures cause { IfErr result (IsCause (RefusesBytes (file_bytes (F.told files.old) name.now))) }
    ensures due { IfSome (F.told files.old)
        (λ shelf. IsErrOf result Outcome.FileFault ↔ IsTrue (is_due shelf name.now)) }
    ensures told { F.told files.new ≡ option_map after_call (F.told files.old) }
    ensures count { F.faults files.new ≡ file_faults_unless result (F.faults files.old) }
{
    let bytes = match read_file(alloc, files, name, IMAGE_LIMIT) {
        Ok(bytes) => bytes,
        Err(outcome) => return Err(outcome),
    };
    match read_image(alloc, bytes.as_slice()) {
        Ok(image) => Ok(image),
        Err(fault) => Err(outcome_of_image_fault(fault)),
    }
}
