//! The checks of a bundle, which a run makes before its first command.

ghost use Rattle.std.specs.Prelude.{◌≡◌, ◌≤◌, ◌+◌, All, length, IfOk, IfErr};
ghost use Rattle.lrc_script.specs.Scripts.{IsFirstBad};
ghost use Rattle.lrc_outputs.specs.Limits.{script_limit};
ghost use Rattle.lrc_outputs.specs.RefusedInputs.{bad_line_text, bad_line_text_behind};
ghost use Rattle.lrc_outputs.specs.OutputErrors.{IsRefusedWith};
ghost use Rattle.lrc_outputs.specs.Judged.{lists_of, first_bad_in, shifted, AreParsed, IsRefusalIn, IsAccepted};

use crate::error::OutputError;
use crate::limits::{BUNDLE_LIMIT, SCRIPT_LIMIT, SEQUEL_LIMIT};
use lrc_book::Command;
use lrc_refusals::InputRefusal;
use lrc_script::{ScriptError, ScriptText, parse_script, split_bundle};
use lrc_topology::Topology;
use std::alloc::Global;

/// What a bundle has that passes all checks.
#[derive(Drop)]
pub(crate) struct Accepted {
    pub(crate) topology: Topology,
    /// The commands of each script.
    pub(crate) scripts: Vec<Vec<Command>>,
}

/// Checks a bundle that stands alone.
pub(crate) fn judge(alloc: Global, bundle: &[u8]) -> Result<Accepted, OutputError>
    ensures accepted { IfOk result (λ a. IsAccepted script_limit bundle.now a.topology a.scripts.items) }
    ensures refused { IfErr result (IsRefusedWith (IsRefusalIn script_limit bad_line_text bundle.now)) }
{
    judge_behind(alloc, bundle, SCRIPT_LIMIT, 0)
}

/// Checks a bundle that has at most `most` scripts and stands behind `passed` lines.
pub(crate) fn judge_behind(
    alloc: Global,
    bundle: &[u8],
    most: usize,
    passed: u64,
) -> Result<Accepted, OutputError>
    requires few { most ≤ SCRIPT_LIMIT }
    requires passed { passed ≤ SEQUEL_LIMIT }
    ensures accepted { IfOk result (λ a. IsAccepted most bundle.now a.topology a.scripts.items) }
    ensures refused { IfErr result (IsRefusedWith (IsRefusalIn most (bad_line_text_behind passed) bundle.now)) }
{
    if bundle.len() > BUNDLE_LIMIT {
        return Err(OutputError::Refused(InputRefusal::TooLong));
    }
    let parts = split_bundle(alloc, bundle, most)?;
    let topology = Topology::read(alloc, parts.topology)?;
    let scripts = parse_scripts(alloc, parts.scripts.as_slice(), passed)?;
    Ok(Accepted { topology, scripts })
}

/// Returns the commands of each script, if none has a bad line. Lines are counted behind `passed` others.
fn parse_scripts(
    alloc: Global,
    scripts: &[ScriptText],
    passed: u64,
) -> Result<Vec<Vec<Command>>, ScriptError>
    // The scripts are parts of a bundle.
    requires parts { All (λ s. s.first_line + length s.text.now ≤ BUNDLE_LIMIT) scripts.now }
    requires passed { passed ≤ SEQUEL_LIMIT }
    ensures parsed { IfOk result (λ v. AreParsed scripts.now (lists_of v.items)) }
    ensures bad { IfErr result (IsFirstBad (shifted passed (first_bad_in scripts.now))) }
{
    let mut parsed = Vec::new(alloc);
    for script in scripts {
        let commands = parse_script(alloc, script.text, passed + script.first_line)?;
        parsed.push(commands)?;
    }
    Ok(parsed)
}
