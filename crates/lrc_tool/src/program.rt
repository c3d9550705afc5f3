//! Running a bundle, from the bytes of the source to those of the sink.

ghost use Rattle.lrc_tool.specs.Answering.{reading, writing, no_writing, Answers};
ghost use Rattle.lrc_tool.specs.Inputs.{running};

use crate::outcome::write_outcome;
use lrc_outputs::{BUNDLE_LIMIT, Status, output_of};
use lrc_streams::{RunFault, Sink, Source, read_all};
use std::alloc::Global;
use std::sync::Wait;
use std::thread::Threads;

/// Runs the bundle that the source holds: reads it, runs its scripts, and then writes the whole output. Two or more
/// scripts run at once, each in its own thread if the system has threads.
///
/// # Errors
///
/// `OutOfMemory`; `Read` if a read fails; `Write` if a write fails; `NoReader` if the bundle passes all checks and
/// has two scripts or more, and a session gets no reader of the published view. Never `HistoryFull`: no bundle has as
/// many commands as a history has room for.
pub fn run<R: Source, W: Sink, T: Threads + Wait + Sync>(
    rt: &T,
    alloc: Global,
    source: &mut R,
    sink: &mut W,
) -> Result<Status, RunFault>
    ensures answers { Answers running (reading R.Source source.old source.new)
        (writing W.Sink sink.old sink.new) no_writing result }
{
    let bundle = read_all(alloc, source, BUNDLE_LIMIT)?;
    let output = output_of(rt, alloc, bundle)?;
    write_outcome(sink, output.text.as_slice(), output.status)
}
