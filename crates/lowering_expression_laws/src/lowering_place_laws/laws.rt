//! Laws of the code of places, each the contract of a function that does nothing.

ghost use Rattle.lowering_expression_laws.specs.lowering_place_laws.Laws.{PlacesMeet, AccessesMeet};

/// The code of these places gives a pointer that, moved by the bytes which are left, stands for where the place is,
/// where the code of their parts does what they do.
pub fn places_meet()
    ensures { PlacesMeet }
{}

/// The code of what stands at these places, and of their addresses, does what they do.
pub fn accesses_meet()
    ensures { AccessesMeet }
{}
