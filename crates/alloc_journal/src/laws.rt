//! Laws of journals, each the contract of a function that does nothing.

ghost use Rattle.alloc_journal.specs.Order.{VisitsAreInOrder};

/// A journal has one visit for each instruction, in linear order.
pub fn visits_are_in_order()
    ensures { VisitsAreInOrder }
{}
