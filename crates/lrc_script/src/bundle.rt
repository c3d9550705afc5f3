ghost use Rattle.std.specs.Prelude.{◌≡◌, ◌+◌, ◌<◌, ◌≤◌, length, All, OnOk, IfOk, IsErrOf};
ghost use Rattle.lrc_script.specs.Bundles.{scripts_of, topology_of, AreTextsOf};
ghost use Rattle.lrc_script.specs.Cuts.{IsPart};
ghost use Rattle.lrc_script.specs.declared.bundle.BundleError.TheVariants as errors;

use crate::cut::cut_line;
use memchr::{memchr, memchr_iter};
use std::alloc::{AllocError, AllocFailed, Global};
use thiserror::Error;

/// The text of a script, and the number of its first line in the bundle.
#[derive(Clone, Copy)]
pub struct ScriptText<'a> {
    /// Lines are counted from 1 over the whole bundle.
    pub first_line: u64,
    /// The text after its parting line, up to the next one or to the end of the bundle.
    pub text: &'a [u8],
}

/// The parts of a bundle.
#[derive(Drop)]
pub struct Bundle<'a> {
    /// The text before the first parting line, or the whole bundle if it has none.
    pub topology: &'a [u8],
    pub scripts: Vec<ScriptText<'a>>,
}

/// Why a bundle is refused.
#[derive(Clone, Copy, Debug, PartialEq, Eq, Error)]
pub enum BundleError {
    /// It has more scripts than the caller accepts.
    #[error("too many scripts")]
    TooManyScripts,
    #[error("out of memory")]
    OutOfMemory,
}

impl From<AllocError> for BundleError {
    ghost use Rattle.std.specs.Prelude.{◌≡◌};
    ghost use Rattle.lrc_script.specs.declared.bundle.BundleError.TheVariants.{OutOfMemory};

    ghost from_gives = { λ _ e. e ≡ OutOfMemory };

    fn from(_error: AllocError) -> BundleError {
        BundleError::OutOfMemory
    }
}

impl<T: Drop> From<AllocFailed<T>> for BundleError {
    ghost use Rattle.std.specs.Prelude.{◌≡◌};
    ghost use Rattle.lrc_script.specs.declared.bundle.BundleError.TheVariants.{OutOfMemory};

    ghost from_gives = { λ _ e. e ≡ OutOfMemory };

    fn from(_error: AllocFailed<T>) -> BundleError {
        BundleError::OutOfMemory
    }
}

/// Splits a bundle into its topology and its scripts, of which it has at most `most`.
///
/// # Errors
///
/// `TooManyScripts` if it has more, and `OutOfMemory` if the list of scripts cannot be allocated.
pub fn split_bundle<'a>(
    alloc: Global,
    bundle: &'a [u8],
    most: usize,
) -> Result<Bundle<'a>, BundleError>
    ensures topology { IfOk result (λ parts. parts.topology.now ≡ topology_of bundle.now) }
    ensures scripts { IfOk result (λ parts. AreTextsOf (scripts_of bundle.now) parts.scripts.items) }
    // So the number of each line of a script is below 2 ^ 64.
    ensures numbered { IfOk result
        (λ parts. All (λ s. s.first_line + length s.text.now ≤ length bundle.now) parts.scripts.items) }
    ensures few { OnOk result (length (scripts_of bundle.now) ≤ most) }
    ensures many { IsErrOf result errors.TooManyScripts → most < length (scripts_of bundle.now) }
{
    let first = cut_part(bundle);
    let mut scripts = Vec::new(alloc);
    // The number of lines before the next parting line.
    let mut passed = first.lines;
    let mut behind = first.behind;
    while let Some(rest) = behind {
        if scripts.len() == most {
            return Err(BundleError::TooManyScripts);
        }
        let part = cut_part(rest);
        let first_line = passed + 2;
        let text = part.text;
        scripts.push(ScriptText { first_line, text })?;
        passed += 1 + part.lines;
        behind = part.behind;
    }
    let topology = first.text;
    Ok(Bundle { topology, scripts })
}

/// A text, split at its first parting line.
#[derive(Clone, Copy)]
struct Part<'a> {
    /// The text before that line, or the whole text if it has none.
    text: &'a [u8],
    /// The number of lines before that line.
    lines: u64,
    /// The text after that line, or `None` if there is no such line.
    behind: Option<&'a [u8]>,
}

/// Splits a text at its first parting line.
fn cut_part(text: &[u8]) -> Part<'_>
    ensures { IsPart text.now result.text.now result.lines result.behind }
{
    // Few lines have a percent sign, and a search for one passes over all others at once.
    let mut from = 0;
    while let Some(found) = memchr(b'%', &text[from..]) {
        let at = from + found;
        if at == 0 || text[at - 1] == b'\n' {
            let (line, behind) = cut_line(&text[at..]);
            if line == b"%%".as_slice() {
                let text = &text[..at];
                let lines = memchr_iter(b'\n', text).count() as u64;
                let behind = Some(behind.unwrap_or(&[]));
                return Part {
                    text,
                    lines,
                    behind,
                };
            }
        }
        from = at + 1;
    }
    Part {
        text,
        lines: 0,
        behind: None,
    }
}
