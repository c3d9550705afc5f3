//! Going on from an image, with refusals apart from answers.

ghost use Rattle.std.specs.Prelude.{◌≡◌, IfOk};
ghost use Rattle.lrc_refusals.specs.Refusals.{input_refusal_text};
ghost use Rattle.lrc_tool.specs.Answering.{reading, writing, Answers};
ghost use Rattle.lrc_tool.specs.Inputs.{asking};

use crate::outcome::write_outcome;
use lrc_outputs::{Goal, SEQUEL_LIMIT, Status, sequel_output};
use lrc_refusals::InputRefusal;
use lrc_streams::{RunFault, Sink, Source, read_all};
use std::alloc::{AllocError, Global};

/// Does what `go_on` does, but writes a refusal to `errors`, with words before its line, and then nothing to `sink`.
///
/// # Errors
///
/// `OutOfMemory`; `Read` if a read fails; `Write` if a write to either fails.
pub fn ask<R: Source, W: Sink, E: Sink>(
    alloc: Global,
    goal: Goal<'_>,
    source: &mut R,
    sink: &mut W,
    errors: &mut E,
) -> Result<Status, RunFault>
    ensures answers { Answers (asking goal.entry) (reading R.Source source.old source.new)
        (writing W.Sink sink.old sink.new) (writing E.Sink errors.old errors.new) result }
{
    let sequel = read_all(alloc, source, SEQUEL_LIMIT)?;
    let output = sequel_output(alloc, goal, sequel.as_slice())?;
    match output.refusal {
        None => write_outcome(sink, output.text.as_slice(), output.status),
        Some(refusal) => {
            let told = input_refusal_text(alloc, refusal)?;
            write_outcome(errors, told.as_slice(), output.status)
        }
    }
}

/// The text of a refusal: its words, and then its line.
fn input_refusal_text(alloc: Global, refusal: InputRefusal) -> Result<Vec<u8>, AllocError>
    ensures { IfOk result (λ told. told.items ≡ input_refusal_text refusal) }
{
    let mut told = String::new(alloc);
    refusal.push_text(&mut told)?;
    Ok(told.into_bytes())
}
