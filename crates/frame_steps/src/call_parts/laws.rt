//! Laws, each the contract of a function that does nothing.

ghost use Rattle.frame_steps.specs.call_parts.Laws.{EntriesAreDone, ExitsAreDone};

/// The machine enters a function by its entry part and leaves it by its exit part, with the caller's registers kept.
pub fn parts_are_done()
    ensures entries { EntriesAreDone }
    ensures exits { ExitsAreDone }
{}
