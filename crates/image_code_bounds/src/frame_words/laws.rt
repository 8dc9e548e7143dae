//! Laws of words, each the contract of a function that does nothing.

ghost use Rattle.image_code_bounds.specs.frame_words.Words.{TextsHaveMostWords, LeanFunctionsAreShort};

/// A text has at most the most words of its items, and those of a lean allocation are at most the bulk of its function.
pub fn lean_functions_are_short()
    ensures texts { TextsHaveMostWords }
    ensures functions { LeanFunctionsAreShort }
{}
