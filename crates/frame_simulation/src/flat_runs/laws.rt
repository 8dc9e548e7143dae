//! Laws, each the contract of a function that does nothing.

ghost use Rattle.frame_simulation.specs.flat_runs.Runs.{RunsAreDone, OnlyTheseEnd};

/// Where the machine stands for a run over registers and slots, it does what that comes to, and nothing else.
pub fn runs_are_done()
    ensures forward { RunsAreDone }
    ensures only { OnlyTheseEnd }
{
    // no instruction takes back output
    alloc_model::laws::runs_go_on();
}
