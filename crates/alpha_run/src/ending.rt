//! How a run ends.

ghost use Rattle.std.specs.Prelude.{◌≡◌};

/// How a run of a machine ended, or why it stopped.
#[derive(Clone, Copy, Debug, PartialEq, Eq)]
pub enum Ending {
    /// The program ended with a status.
    Done { status: u8 },
    /// The program trapped with a code.
    Trap { code: u64 },
    /// There is nothing that the machine can do at this place.
    Stuck { pc: u64 },
    /// The steps that the run was given are done. A later run goes on.
    Budget,
    /// A byte of the input could not be read. The step was not done, and a later run tries it again.
    InputFault,
    /// A byte of the output could not be written. The step was not done, and a later run tries it again.
    WriteFault,
}

/// How a program came to an end that no later run goes past.
#[derive(Clone, Copy, Debug, PartialEq, Eq)]
pub(crate) enum Halt {
    Done { status: u8 },
    Trap { code: u64 },
    Stuck { pc: u64 },
}

impl Halt {
    ghost use Rattle.alpha_run.specs.Ending.{halt_ending, halt_is};
    ghost use Rattle.alpha_run.specs.Run.{last_step};

    pub(crate) fn ending(self) -> Ending
        ensures { result ≡ halt_ending (halt_is self) }
    {
        match self {
            Halt::Done { status } => Ending::Done { status },
            Halt::Trap { code } => Ending::Trap { code },
            Halt::Stuck { pc } => Ending::Stuck { pc },
        }
    }

    /// The steps that an end takes: none where the machine is stuck.
    pub(crate) fn steps(self) -> u64
        ensures { result ≡ last_step (halt_is self) }
    {
        match self {
            Halt::Stuck { .. } => 0,
            _ => 1,
        }
    }
}
