//! What a compile and a run are asked for, and what is shown of a compile.

/// How the values of a program get their places.
#[derive(Clone, Copy, Debug, PartialEq, Eq)]
pub enum Allocator {
    /// Each value has a slot of its own in the frame of its function.
    Plain,
    /// Values share registers, which one scan of their function with second chances gives them.
    Binpack,
}

/// What a compile is asked for.
#[derive(Clone, Copy, Debug, PartialEq, Eq)]
pub struct Options {
    pub allocator: Allocator,
}

/// How much a run on the machine gets.
#[derive(Clone, Copy, Debug, PartialEq, Eq)]
pub struct MachineLimits {
    /// The size of the stack, in bytes.
    pub stack: u64,
    /// How many steps it may take.
    pub budget: u64,
}

/// A text that is made by a seed and a size, and how it is compiled and run.
#[derive(Clone, Copy, Debug, PartialEq, Eq)]
pub struct Generation {
    /// What the choices of the text begin with.
    pub seed: u32,
    /// How many functions it has beside `main`, from 1 to 2,000.
    pub size: u32,
    pub options: Options,
    pub limits: MachineLimits,
}

/// What is printed of a text.
#[derive(Clone, Copy, Debug, PartialEq, Eq)]
pub enum PassName {
    /// Its syntax tree.
    Tree,
    /// Its program over virtual registers.
    Vm,
    /// The flow graphs of the functions of that program.
    Graph,
    /// Its code over temporaries.
    Select,
    /// What is live at the ends of its blocks, and where its temporaries are wanted.
    Live,
    /// Its allocations.
    Alloc,
    /// What the allocator did, visit by visit.
    Journal,
    /// Its assembly.
    Asm,
}
