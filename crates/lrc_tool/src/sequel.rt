//! Going on from an image, from the bytes of the source to those of the sink.

ghost use Rattle.lrc_tool.specs.Answering.{reading, writing, no_writing, Answers};
ghost use Rattle.lrc_tool.specs.Inputs.{going_on};

use crate::outcome::write_outcome;
use lrc_outputs::{Goal, SEQUEL_LIMIT, Status, sequel_output};
use lrc_streams::{RunFault, Sink, Source, read_all};
use std::alloc::Global;

/// Runs the script of the sequel that the source holds, from its image on: reads it, runs the script, and then writes
/// the whole output: what the goal says, or why the sequel is refused.
///
/// # Errors
///
/// `OutOfMemory`; `Read` if a read fails; `Write` if a write fails.
pub fn go_on<R: Source, W: Sink>(
    alloc: Global,
    goal: Goal<'_>,
    source: &mut R,
    sink: &mut W,
) -> Result<Status, RunFault>
    ensures answers { Answers (going_on goal.entry) (reading R.Source source.old source.new)
        (writing W.Sink sink.old sink.new) no_writing result }
{
    let sequel = read_all(alloc, source, SEQUEL_LIMIT)?;
    let output = sequel_output(alloc, goal, sequel.as_slice())?;
    write_outcome(sink, output.text.as_slice(), output.status)
}
