//! How a run ends.

/// How a run of a program ended, or why it stopped.
#[derive(Clone, Copy, Debug, PartialEq, Eq)]
pub enum VmEnding {
    /// `main` returned, or the program ended itself, with a status.
    Ended { status: u8 },
    /// The program trapped with a code.
    Trapped { code: u64 },
    /// An instruction has no meaning where it stands: its number, over the whole program.
    Undefined { pc: u64 },
    /// A turn was to be taken, and all of so many were taken before.
    Budget { turns: u64 },
    /// A byte of the input could not be read.
    InputFault,
    /// A byte of the output could not be written.
    WriteFault,
    /// Memory is short for the run.
    NoMemory,
}
