//! Laws, each the contract of a function that does nothing.

ghost use Rattle.image_theorem.specs.program_images.Programs.{ProgramsBehave};

/// The image of an assembly with the items of a program behaves as the program does over temporaries.
pub fn programs_behave()
    ensures { ProgramsBehave }
{
    crate::image_runs::laws::images_keep();
}
