//! Laws, each the contract of a function that does nothing.

ghost use Rattle.compiler_theorem.specs.same_behaviour.Same.{UnitsBehaveAlike, UnitsEndSoon};

/// An image that is made of a well typed unit behaves as the unit does, on each stack, and on each input of bytes on
/// which the unit promises something with that stack (C99 5.1.2.3).
pub fn units_behave_alike()
    ensures { UnitsBehaveAlike }
{
    crate::unit_images::laws::units_are_same();
}

/// On the same stacks and inputs it ends or traps within 600 steps for each word of its text and each turn that the
/// unit takes, and for one turn more.
pub fn units_end_soon()
    ensures { UnitsEndSoon }
{
    crate::unit_images::laws::units_are_same();
}
