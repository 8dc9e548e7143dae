//! Laws of the code of functions and of runs of it, each the contract of a function that does nothing.

ghost use Rattle.lowering_states.specs.Laws.{BlocksHaveItems, CodeLeads, StatesStay, LocalsAreWritten};

/// The blocks of a function's code have its items, one behind the other, from the first place of the first block on.
pub fn code_stands()
    ensures { BlocksHaveItems }
{}

/// An instruction that writes values leads to the place behind it, a jump to its block, and the end of a block to the
/// next one: a run from there is seen to end as one from here.
pub fn code_leads()
    ensures { CodeLeads }
{}

/// States that correspond do so after a part of a run that ended the objects which it began, and after a local was
/// written on both sides.
pub fn states_correspond()
    ensures stay { StatesStay }
    ensures locals { LocalsAreWritten }
{}
