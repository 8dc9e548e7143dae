//! What a call asks for.

use crate::compile_options::{Generation, MachineLimits, Options, PassName};

/// What is asked for over a file.
#[derive(Clone, Copy, Debug, PartialEq, Eq)]
pub enum Command {
    /// To compile a C file, and write its image.
    Build(Options),
    /// To compile a C file, and run its image.
    Run(Options, MachineLimits),
    /// To make the program of a C file over virtual registers, and run it for so many turns at most.
    Vm { turns: u64 },
    /// To read an image, and run it.
    Exec(MachineLimits),
    /// To read an image, and write it in the version that is written today.
    Migrate,
    /// To read an assembly text, and write its image.
    Assemble,
    /// To compile a C file, and write the text of a pass.
    Print(PassName, Options),
}

/// What the words ask for.
#[derive(Clone, Copy, Debug, PartialEq, Eq)]
pub enum Request<'a> {
    /// A command over the file of a name.
    OnFile { command: Command, file: &'a str },
    /// `gen`: to make a text, compile it, run its image on an empty input, and write how that went.
    Generate(Generation),
}

/// The options that there are.
#[derive(Clone, Copy, Debug, PartialEq, Eq)]
pub(crate) enum OptionName {
    Pass,
    Alloc,
    Stack,
    Budget,
    Seed,
    Size,
}
