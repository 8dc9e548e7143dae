//! Laws of the commands that compile, each the contract of a function that does nothing.

ghost use Rattle.compile_call_laws.specs.Laws.{TextsWithAUnitAreNotRefused, BuildWritesWhatTheTextMeans, RunDoesWhatTheTextMeans, VmAnswersAsTheTextMeans};

use c_parser::laws::{one_tree, read_or_refused};
use compiler_theorem::refined_code::laws::behaviours_are_refined;
use suifvm_meaning::laws::{one_ending, runs_go_on};

/// A text that has a unit within the limits is refused by no command that compiles it, unless the file fails or
/// memory is short, or its tree is higher than is taken.
pub fn texts_with_a_unit_are_not_refused()
    ensures { TextsWithAUnitAreNotRefused }
{
    one_tree();
    read_or_refused();
}

/// `build` writes for such a text an image that is right for the unit, unless the outside fails or memory is short.
pub fn build_writes_what_the_text_means()
    ensures { BuildWritesWhatTheTextMeans }
{
    one_tree();
    read_or_refused();
}

/// `run` ends or traps for such a text as the unit does, where that promises something on the input with the stack of the
/// run, unless its steps are too few, the outside fails or memory is short; it puts what the unit puts, or a front of
/// that, and is never stuck. Where the unit ends within `n` turns, `1_228_800 * w * (n + 1)` steps are enough, for its
/// weight `w`. The input is what was left, where that is told, and else there is such an input.
pub fn run_does_what_the_text_means()
    ensures { RunDoesWhatTheTextMeans }
{
    one_tree();
    read_or_refused();
}

/// `vm` answers for such a text as the unit behaves on the input within the turns asked for, wherever that is defined,
/// and puts what the unit puts; or a front of that where the input or the output fails, or memory gets short on the way;
/// or nothing where the file fails or memory is short. The input is what was left, where that is told, and else there is
/// such an input.
pub fn vm_answers_as_the_text_means()
    ensures { VmAnswersAsTheTextMeans }
{
    one_tree();
    read_or_refused();
    one_ending();
    runs_go_on();
    behaviours_are_refined();
}
