//! Laws, each the contract of a function that does nothing.

ghost use Rattle.par_move.specs.Laws.{CyclesAreOneList, CountIsOne};

/// The cycles of moves are one list.
pub fn cycles_are_one_list()
    ensures { CyclesAreOneList }
{}

/// So the count of moves that are made for others is one number.
pub fn count_is_one()
    ensures { CountIsOne }
{}
