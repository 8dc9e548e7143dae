//! Laws, each the contract of a function that does nothing.

ghost use Rattle.alloc_lifetime_ends.specs.Wanted.{WantsAreExact};

/// Tests by the sets of what is live say where temporaries are live and present.
pub fn wants_are_exact()
    ensures { WantsAreExact }
{}
