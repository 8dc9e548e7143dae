//! Laws, each the contract of a function that does nothing.

ghost use Rattle.compiler_theorem.specs.unit_images.Laws.{UnitsAreSame};

/// An image that is made of a well typed unit is the same as the unit on each input on which no run of the unit is
/// undefined and the peak of each is within the stack.
pub fn units_are_same()
    ensures { UnitsAreSame }
{
    image_theorem::same_runs::programs::laws::programs_behave();
}
