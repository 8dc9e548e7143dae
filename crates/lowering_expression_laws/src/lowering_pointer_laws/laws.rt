//! Laws of the code of pointers, each the contract of a function that does nothing.

ghost use Rattle.lowering_expression_laws.specs.lowering_pointer_laws.Laws.{PointersAreMoved, PointersAboveAreMoved, PointersAreCompared, DistancesMeet};

/// The code of the sum and the difference of a pointer and an integer, and of an element, does what these do, where
/// that of their operands does.
pub fn pointers_are_moved()
    ensures { PointersAreMoved }
{}

/// The same of sums and elements whose left operand is the integer.
pub fn pointers_above_are_moved()
    ensures { PointersAboveAreMoved }
{}

/// The code of a comparison of two pointers does what it does, where that of its operands does.
pub fn pointers_are_compared()
    ensures { PointersAreCompared }
{}

/// The code of the distance of two pointers does what it does, where that of its operands does.
pub fn distances_meet()
    ensures { DistancesMeet }
{}
