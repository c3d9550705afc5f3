//! Writing the text of an outcome.

ghost use Rattle.lrc_tool.specs.Answering.{one_outcome, writing, no_writing, Writes};

use lrc_outputs::Status;
use lrc_streams::{RunFault, Sink, write_all};

/// Writes a text, whole, and returns the status.
pub(crate) fn write_outcome<W: Sink>(
    sink: &mut W,
    text: &[u8],
    status: Status,
) -> Result<Status, RunFault>
    ensures { Writes (one_outcome text.now status) (writing W.Sink sink.old sink.new) no_writing result }
{
    write_all(sink, text)?;
    Ok(status)
}
