//! What follows of what the passes give, by the laws of the layers below: each the contract of a function that does
//! nothing.

ghost use Rattle.compiler.specs.model.Stages.{RewrittenCodeDoesAsUnit, KeptCodeDoesAsUnit, CodeCanBeAssembled, AssembliesAreMade, ImagesAreCorrect};

use block_preparation_laws::laws::{
    passes_keep_selections, temp_functions_fit, temp_functions_have_names,
};
use compiler_theorem::refined_code::laws::refined_units_have_code;
use image_assembly_laws::allocation_laws::laws::{
    allocations_are_near, allocations_fit, labels_are_few,
};
use image_assembly_laws::laws::{
    assemblies_are_exact, assemblies_have_programs, programs_are_allocated,
};
use image_code_bounds::program_rooms::laws::{frames_fit_their_rooms, functions_have_frames};
use image_code_bounds::unit_words::laws::unit_texts_fit_images;
use suifvm_meaning::laws::one_ending;

/// The code of a rewritten unit does what the unit does.
pub(crate) fn rewritten_code_does_as_unit()
    ensures { RewrittenCodeDoesAsUnit }
{
    refined_units_have_code();
}

/// Code that passes made of code that does what the unit does, and that keeps what they have to keep, does so too.
pub(crate) fn kept_code_does_as_unit()
    ensures { KeptCodeDoesAsUnit }
{
    one_ending();
}

/// The code of a unit within the limits can be laid out and gathered, by any allocations of its functions.
pub(crate) fn code_can_be_assembled()
    ensures { CodeCanBeAssembled }
{
    temp_functions_fit();
    temp_functions_have_names();
    functions_have_frames();
    allocations_fit();
    labels_are_few();
}

/// The assembly of it is one of the unit, and its text is not too long, by the weight of the unit too.
pub(crate) fn assemblies_are_made()
    ensures { AssembliesAreMade }
{
    passes_keep_selections();
    temp_functions_fit();
    functions_have_frames();
    frames_fit_their_rooms();
    allocations_fit();
    allocations_are_near();
    assemblies_are_exact();
    programs_are_allocated();
    unit_texts_fit_images();
}

/// The image of it is right for the text.
pub(crate) fn images_are_correct()
    ensures { ImagesAreCorrect }
{
    assemblies_have_programs();
    compiler_theorem::same_behaviour::laws::units_behave_alike();
    compiler_theorem::same_behaviour::laws::units_end_soon();
}
