//! Whether a set of losses is recoverable, from the mask as a word to the bytes of the sink.

ghost use Rattle.std.specs.Prelude.{◌≡◌, IfOk};
ghost use Rattle.lrc_text.specs.Masks.{mask_text, recovery_text};
ghost use Rattle.lrc_tool.specs.Answering.{one_outcome, writing, no_writing, Writes};
ghost use Rattle.lrc_tool.specs.Coding.{mask_status, recovery_status};

use crate::outcome::write_outcome;
use lrc_code::Code;
use lrc_outputs::Status;
use lrc_streams::{RunFault, Sink};
use lrc_text::{parse_mask, push_mask_line};
use std::alloc::{AllocError, Global};

/// Writes how many fragments of each class are lost and how many more losses can be recovered, or that the losses are
/// not recoverable. The mask is of a stripe of the code: four hexadecimal digits in either case, with fragment f as
/// bit f. A mask with the bit of a fragment that the code lacks is refused.
///
/// # Errors
///
/// `OutOfMemory`; `Write` if a write fails.
pub fn recover<W: Sink>(
    alloc: Global,
    code: Code,
    mask: &str,
    sink: &mut W,
) -> Result<Status, RunFault>
    ensures writes { Writes (one_outcome (recovery_text code mask.now) (recovery_status code mask.now))
        (writing W.Sink sink.old sink.new) no_writing result }
{
    let losses = parse_mask(code, mask);
    let line = mask_line(alloc, code, losses)?;
    write_outcome(sink, line.as_slice(), mask_status(losses))
}

/// The line for a mask, or for a word that is none.
fn mask_line(alloc: Global, code: Code, mask: Option<u16>) -> Result<Vec<u8>, AllocError>
    ensures { IfOk result (λ line. line.items ≡ mask_text code mask) }
{
    let mut line = String::new(alloc);
    push_mask_line(&mut line, code, mask)?;
    Ok(line.into_bytes())
}

/// The status for a mask, or for a word that is none.
fn mask_status(mask: Option<u16>) -> Status
    ensures { result ≡ mask_status mask }
{
    match mask {
        Some(_) => Status::Done,
        None => Status::Refused,
    }
}
