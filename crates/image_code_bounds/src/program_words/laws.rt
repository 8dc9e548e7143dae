//! Laws, each the contract of a function that does nothing.

ghost use Rattle.image_code_bounds.specs.program_words.Words.{LaidOutFunctionsAreShort, StartsAreShort, TextsAreWithinWeight};
ghost use Rattle.image_code_bounds.specs.program_words.Words.{LightTextsFitImages, OnlyMemoryIsShort};

/// The items of a function that is laid out are at most the words of its bulk, whatever branches become far.
pub fn laid_out_functions_are_short()
    ensures { LaidOutFunctionsAreShort }
{
    crate::frame_words::laws::lean_functions_are_short();
}

/// The start piece and the division routines are at most 2,048 words, whatever branches become far.
pub fn starts_are_short()
    ensures { StartsAreShort }
{}

/// The text of an assembly has at most 2,048 words for each unit of the weight of its unit.
pub fn texts_are_within_weight()
    ensures { TextsAreWithinWeight }
{
    crate::frame_words::laws::lean_functions_are_short();
}

/// So that of a unit which is no heavier than the most weight fits an image: it is not too long for `assemble`.
pub fn light_texts_fit_images()
    ensures texts { LightTextsFitImages }
    ensures faults { OnlyMemoryIsShort }
{
    crate::frame_words::laws::lean_functions_are_short();
}
