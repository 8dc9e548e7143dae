//! The summary of a run.

ghost use Rattle.std.specs.Prelude.{◌≡◌, ◌++◌, OnOk, string_bytes};
ghost use Rattle.call_outcomes.specs.Outcome.{line_with};
ghost use Rattle.compile_calls.specs.Summary.{summary_text};

use std::alloc::AllocError;
use std::fmt::Write;

/// What is told of a text, of its image, and of the run of that.
#[derive(Clone, Copy, Debug, PartialEq, Eq)]
pub(crate) struct Summary {
    /// The bytes of the text.
    pub(crate) text: u64,
    /// The words of the image.
    pub(crate) words: u64,
    /// The steps of the run.
    pub(crate) steps: u64,
    /// The bytes of its output.
    pub(crate) output: u64,
    /// The status with which it ended.
    pub(crate) status: u8,
}

/// Puts a line with a name and a number.
#[tactic(auto, using(crate::proofs::Summaries::two_pieces))]
fn put_line(lines: &mut String, name: &str, number: u64) -> Result<(), AllocError>
    ensures { OnOk result (string_bytes lines.new ≡ string_bytes lines.old ++ line_with name.now number) }
{
    lines.push_str(name)?;
    writeln!(lines, "{number}")?;
    Ok(())
}

/// Puts the five lines of a summary.
#[tactic(auto, using(crate::proofs::Summaries::five_pieces))]
pub(crate) fn put_summary(lines: &mut String, summary: Summary) -> Result<(), AllocError>
    ensures { OnOk result (string_bytes lines.new ≡ string_bytes lines.old ++ summary_text summary) }
{
    put_line(lines, "text ", summary.text)?;
    put_line(lines, "words ", summary.words)?;
    put_line(lines, "steps ", summary.steps)?;
    put_line(lines, "output ", summary.output)?;
    put_line(lines, "status ", u64::from(summary.status))?;
    Ok(())
}
