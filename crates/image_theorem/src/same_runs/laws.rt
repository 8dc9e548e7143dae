//! Laws, each the contract of a function that does nothing.

ghost use Rattle.image_theorem.specs.same_runs.Same.{RunsAreSame};

/// An image that behaves as each ending of a program, none of which is Undefined, is the same as the program.
pub fn runs_are_same()
    ensures { RunsAreSame }
{}
