//! Laws of runs, each the contract of a function that does nothing. They hold for all types of values and of what
//! keeps them.

ghost use Rattle.std.specs.Prelude.{◌≡◌};
ghost use Rattle.mem_model.specs.Ending.{Done};
ghost use Rattle.machine_model.specs.Machine.{Over};
ghost use Rattle.machine_model.specs.Example.{example_run, last_world};
ghost use Rattle.machine_model.specs.Laws.{StepsAddUp, StepsKeepEndings, MachineHasOneEnding, TurnsKeepEndings, PeakRises, OutputGrows, TurnsExtendOutput};

/// Steps add up, and an ending stays with more steps, so a run has one at most.
pub fn one_ending<V, S>()
    ensures sum { StepsAddUp V S }
    ensures steps { StepsKeepEndings V S }
    ensures one { MachineHasOneEnding V S }
{}

/// More turns keep an ending.
pub fn turns_keep_endings<V, S>()
    ensures { TurnsKeepEndings V S }
{}

/// The peak only rises.
pub fn peaks_rise<V, S>()
    ensures { PeakRises V S }
{}

/// An output only grows, along a run and with more turns.
pub fn outputs_grow<V, S>()
    ensures run { OutputGrows V S }
    ensures turns { TurnsExtendOutput V S }
{}

/// The example runs to its end, in five instructions with five turns.
pub fn an_example_runs()
    ensures { example_run 5 5 ≡ Over (Done last_world 7) }
{}
