//! The law of copies, the contract of a function that does nothing.

ghost use Rattle.selection_forms.specs.alpha_copies.Laws.{CopiesAreDone, CopiesAreShort};

/// The code of a copy does what the copy does, with whole pointers, pieces of pointers and unwritten cells as they are.
pub fn copies_are_done()
    ensures done { CopiesAreDone }
    ensures short { CopiesAreShort }
{}
