//! Passes.

ghost use Rattle.std.specs.Prelude.{IfOk};
ghost use Rattle.pass_core.specs.Passes.{Through};

use std::alloc::{AllocError, Global};

/// A step from one form of a program to the next, which keeps a relation between the two.
pub trait Pass {
    /// What the pass is given.
    type In;
    /// What it makes.
    type Out;

    ghost keeps: { Self.In → Self.Out → Type 0 };

    /// Makes the output of an input. It fails for want of memory alone, and the input is given up then.
    fn run(&self, alloc: Global, input: Self::In) -> Result<Self::Out, AllocError>
        ensures { IfOk result (λ output. keeps input output) };
}

/// Two passes one after the other, which keep the composition of what each keeps.
#[derive(Clone, Copy, Debug, Drop)]
pub struct Then<A, B> {
    /// The pass that is given the input.
    pub first: A,
    /// The pass that is given what the first makes.
    pub second: B,
}

impl<A: Pass, B: Pass<In = A::Out>> Pass for Then<A, B> {
    type In = A::In;

    type Out = B::Out;

    ghost keeps = { Through A.keeps B.keeps };

    fn run(&self, alloc: Global, input: A::In) -> Result<B::Out, AllocError> {
        let middle = self.first.run(alloc, input)?;
        self.second.run(alloc, middle)
    }
}
