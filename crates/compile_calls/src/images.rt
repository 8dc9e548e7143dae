//! The image of a text, of which nothing else is kept.

ghost use Rattle.std.specs.Prelude.{◌≡◌, ◌↔◌, IfOk, IfErr, IfSome, IsErrOf, IsTrue, Some, option_map};
ghost use Rattle.bk_io.specs.Shelf.{is_due, after_call};
ghost use Rattle.call_outcomes.specs.FromFile.{file_bytes, IsCause};
ghost use Rattle.call_outcomes.specs.Output.{file_faults_unless};
ghost use Rattle.compile_calls.specs.Compile.{RefusesText};
ghost use Rattle.compile_calls.specs.model.Causes.{IsNoFault};
ghost use Rattle.compile_calls.specs.Images.{IsImageOfShortText};
ghost use Rattle.compile_calls.specs.model.Images.{HasFileImage};

use crate::texts::{SOURCE_LIMIT, outcome_of_fault, within_limit};
use alpha_isa::image::Image;
use bk_io::outside::Files;
use call_outcomes::files::read_file;
use call_outcomes::outcome::Outcome;
use compiler::Options;
use compiler::compile::compile_image;
use std::alloc::Global;

/// The image of a text.
///
/// # Errors
///
/// What each command answers for a text of which nothing is made.
#[tactic(auto, using(crate::proofs::Causes::compile_cause, crate::proofs::Causes::no_compile_fault))]
pub(crate) fn image_of_text(
    alloc: Global,
    text: Vec<u8>,
    options: &Options,
) -> Result<Image, Outcome>
    ensures image { IfOk result (IsImageOfShortText text.items options.now.allocator) }
    ensures cause { IfErr result (IsCause (RefusesText (Some text.items))) }
    ensures no_fault { IfErr result IsNoFault }
{
    match within_limit(text.as_slice()) {
        Ok(()) => {}
        Err(outcome) => return Err(outcome),
    }
    match compile_image(alloc, text, options) {
        Ok(image) => Ok(image),
        Err(fault) => Err(outcome_of_fault(fault)),
    }
}

/// The image of the text of a file.
pub(crate) fn image_of_file<F: Files>(
    alloc: Global,
    options: &Options,
    name: &str,
    files: &mut F,
) -> Result<Image, Outcome>
    ensures image { IfOk result (HasFileImage (file_bytes (F.told files.old) name.now) options.now.allocator) }
    ensures cause { IfErr result (IsCause (RefusesText (file_bytes (F.told files.old) name.now))) }
    ensures due { IfSome (F.told files.old)
        (λ shelf. IsErrOf result Outcome.FileFault ↔ IsTrue (is_due shelf name.now)) }
    ensures told { F.told files.new ≡ option_map after_call (F.told files.old) }
    ensures count { F.faults files.new ≡ file_faults_unless result (F.faults files.old) }
{
    let text = match read_file(alloc, files, name, SOURCE_LIMIT) {
        Ok(text) => text,
        Err(outcome) => return Err(outcome),
    };
    match image_of_text(alloc, text, options) {
        Ok(image) => Ok(image),
        Err(outcome) => Err(outcome),
    }
}
