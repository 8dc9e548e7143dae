//! Laws, each the contract of a function that does nothing.

ghost use Rattle.image_code_bounds.specs.unit_words.Laws.{AllocationsAreLight, UnitTextsAreWithinWeight, UnitTextsFitImages};

/// The allocations of the functions that the passes make of a unit are light, the text of their assembly has at most
/// 2,048 words for each unit of the weight of the unit, and it fits an image where the unit is within the most weight.
pub fn unit_texts_fit_images()
    ensures light { AllocationsAreLight }
    ensures weight { UnitTextsAreWithinWeight }
    ensures images { UnitTextsFitImages }
{
    image_assembly_laws::allocation_laws::laws::allocations_stand_by_number();
    image_assembly_laws::allocation_laws::laws::allocations_are_near();
    crate::program_words::laws::texts_are_within_weight();
    crate::program_words::laws::light_texts_fit_images();
}
