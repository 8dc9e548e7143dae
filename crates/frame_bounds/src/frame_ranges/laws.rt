//! Laws of items, each the contract of a function that does nothing.

ghost use Rattle.frame_bounds.specs.frame_ranges.Ranges.{ItemsAreInRange, NumbersFit};

/// Where the numbers of an allocation and of its instructions fit, so do the fields of its items: registers are below
/// 32, displacements and literals fit, and each offset into the data is within it. The numbers of instructions fit
/// where what they name is there.
pub fn items_are_in_range()
    ensures items { ItemsAreInRange }
    ensures numbers { NumbersFit }
{}
