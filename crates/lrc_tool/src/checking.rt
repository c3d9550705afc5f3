//! Checking a bundle or a sequel, from the bytes of the source to those of the sinks.

ghost use Rattle.std.specs.Prelude.{◌≡◌, ◌⊎◌, true, false};
ghost use Rattle.std.specs.Io.KnownBytes.{Appends};
ghost use Rattle.lrc_streams.specs.Streams.{AppendsPart};
ghost use Rattle.lrc_tool.specs.Answering.{reading, writing, no_writing, Answers};
ghost use Rattle.lrc_tool.specs.Inputs.{checking, Warns};

use crate::outcome::write_outcome;
use lrc_outputs::{SEQUEL_LIMIT, Status, check_of};
use lrc_streams::{RunFault, Sink, Source, read_all, write_all};
use std::alloc::Global;

/// Checks the bundle or the sequel that the source holds, as a run does, or going on from an image, before the first
/// command, and runs nothing. It writes the numbers of nodes, scripts and commands, or why the input would be
/// refused. If the input passes all checks, it then warns `errors` of each code for which the nodes are in too few
/// domains, and of a last line without an end. A warning that can't be written is lost, and no fault.
///
/// # Errors
///
/// `OutOfMemory`; `Read` if a read fails; `Write` if a write to `sink` fails.
pub fn check<R: Source, W: Sink, E: Sink>(
    alloc: Global,
    source: &mut R,
    sink: &mut W,
    errors: &mut E,
) -> Result<Status, RunFault>
    ensures answers { Answers checking (reading R.Source source.old source.new)
        (writing W.Sink sink.old sink.new) no_writing result }
    ensures warns { Warns E.Sink errors.old errors.new (R.left source.old) result }
{
    let input = read_all(alloc, source, SEQUEL_LIMIT)?;
    let checked = check_of(alloc, input.as_slice())?;
    match write_outcome(sink, checked.output.text.as_slice(), checked.output.status) {
        Ok(status) => {
            warn(errors, checked.warnings.as_slice());
            Ok(status)
        }
        Err(fault) => Err(fault),
    }
}

/// Writes all warnings and flushes after the last write, or does nothing if there are none. No failure is returned:
/// what was checked stays as it is.
fn warn<E: Sink>(errors: &mut E, warnings: &[u8])
    ensures whole { E.has_failed errors.new ≡ false
        → Appends (E.written errors.old) (E.written errors.new) warnings.now }
    ensures part { AppendsPart (E.written errors.old) (E.written errors.new) warnings.now }
    ensures flushed { E.has_failed errors.new ≡ false → (E.is_flushed errors.new ≡ true) ⊎ (errors.new ≡ errors.old) }
{
    if !warnings.is_empty() {
        let _ = write_all(errors, warnings);
    }
}
