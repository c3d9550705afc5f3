//! What a check of a bundle or of a sequel writes.

ghost use Rattle.std.specs.Prelude.{◌≡◌, [], ◌++◌, true, false, length, sum_by, string_bytes, OnOk, IfOk, IfErr};
ghost use Rattle.lrc_warnings.specs.Warnings.{warnings};
ghost use Rattle.lrc_outputs.specs.Judged.{AreFew};
ghost use Rattle.lrc_outputs.specs.OutputErrors.{IsRefusedWith, IsCheckRefusal};
ghost use Rattle.lrc_outputs.specs.Sequels.{has_image};
ghost use Rattle.lrc_outputs.specs.Checks.{counts_line, IsCheck, last_line, has_open_end, end_warning, IsWarned};
ghost use Rattle.lrc_outputs.specs.declared.status.Status.TheVariants as ended;
ghost use Rattle.lrc_streams.specs.declared.streams.RunFault.TheVariants as fault;

use crate::begin::{begin, bundle_of, has_image};
use crate::error::OutputError;
use crate::judging::judge;
use crate::output::Output;
use lrc_book::Command;
use lrc_streams::RunFault;
use lrc_topology::Topology;
use lrc_warnings::warnings_of;
use memchr::memrchr;
use std::alloc::{AllocError, Global};

/// What a check writes.
#[derive(Drop)]
pub struct Checked {
    pub output: Output,
    /// What it warns of; empty where the input is refused.
    pub warnings: Vec<u8>,
}

/// Checks a bundle, or a sequel with an image, and returns what a check writes of it.
///
/// # Errors
///
/// `OutOfMemory`.
pub fn check_of(alloc: Global, input: &[u8]) -> Result<Checked, RunFault>
    ensures line { IfOk result (λ c. IsCheck input.now (c.output.text.items) c.output.status) }
    ensures warned { IfOk result (λ c. IsWarned input.now (c.warnings.items) c.output.status) }
    ensures err { IfErr result (λ e. e ≡ fault.OutOfMemory) }
{
    match check_input(alloc, input) {
        Ok(checked) => Ok(checked),
        Err(error) => {
            let output = error.into_output(alloc)?;
            let warnings = Vec::new(alloc);
            Ok(Checked { output, warnings })
        }
    }
}

/// What a check writes of an input that passes.
fn check_input(alloc: Global, input: &[u8]) -> Result<Checked, OutputError>
    ensures line { IfOk result (λ c. IsCheck input.now c.output.text.items c.output.status) }
    ensures warned { IfOk result (λ c. IsWarned input.now c.warnings.items c.output.status) }
    ensures refused { IfErr result (IsRefusedWith (IsCheckRefusal input.now)) }
{
    if has_image(input) {
        check_sequel(alloc, input)
    } else {
        check_bundle(alloc, input)
    }
}

/// What a check writes of a bundle without an image that passes.
fn check_bundle(alloc: Global, bundle: &[u8]) -> Result<Checked, OutputError>
    requires { has_image bundle.now ≡ false }
    ensures line { IfOk result (λ c. IsCheck bundle.now c.output.text.items c.output.status) }
    ensures warned { IfOk result (λ c. IsWarned bundle.now c.warnings.items c.output.status) }
    ensures refused { IfErr result (IsRefusedWith (IsCheckRefusal bundle.now)) }
{
    let accepted = judge(alloc, bundle)?;
    let checked = passed(
        alloc,
        &accepted.topology,
        accepted.scripts.as_slice(),
        bundle,
    )?;
    Ok(checked)
}

/// What a check writes of a sequel with an image that passes.
fn check_sequel(alloc: Global, sequel: &[u8]) -> Result<Checked, OutputError>
    requires { has_image sequel.now ≡ true }
    ensures line { IfOk result (λ c. IsCheck sequel.now c.output.text.items c.output.status) }
    ensures warned { IfOk result (λ c. IsWarned sequel.now c.warnings.items c.output.status) }
    ensures refused { IfErr result (IsRefusedWith (IsCheckRefusal sequel.now)) }
{
    let begun = begin(alloc, sequel)?;
    let bundle = bundle_of(sequel);
    let checked = passed(
        alloc,
        begun.book.topology(),
        begun.scripts.as_slice(),
        bundle,
    )?;
    Ok(checked)
}

/// What a check writes of a bundle with these nodes and scripts, which passes.
fn passed(
    alloc: Global,
    topology: &Topology,
    scripts: &[Vec<Command>],
    bundle: &[u8],
) -> Result<Checked, RunFault>
    requires { AreFew scripts.now }
    ensures line { IfOk result (λ c. c.output.text.items
        ≡ counts_line (length topology.now) (length scripts.now) (sum_by (λ script. length script.items) scripts.now)) }
    ensures status { IfOk result (λ c. c.output.status ≡ ended.Done) }
    ensures warned { IfOk result
        (λ c. c.warnings.items ≡ warnings topology.now ++ end_warning (length scripts.now) bundle.now) }
    ensures err { IfErr result (λ e. e ≡ fault.OutOfMemory) }
{
    let mut warnings = warnings_of(alloc, topology)?;
    push_end_warning(&mut warnings, scripts.len(), bundle)?;
    let output = counted(alloc, topology.len(), scripts)?;
    Ok(Checked { output, warnings })
}

/// Adds a line if the last line of the last script has no end: a file that was cut may still pass all checks.
fn push_end_warning(out: &mut Vec<u8>, scripts: usize, bundle: &[u8]) -> Result<(), AllocError>
    ensures { OnOk result (out.new.items ≡ out.old.items ++ end_warning scripts bundle.now) }
{
    if scripts > 0 && has_open_end(bundle) {
        out.extend_from_slice(b"lrcman: the last line has no end: is the file whole?\n")?;
    }
    Ok(())
}

/// Whether something other than a line that begins a script stands behind the last LF.
fn has_open_end(text: &[u8]) -> bool
    ensures { result ≡ has_open_end text.now }
{
    let line = last_line(text);
    !line.is_empty() && line != b"%%".as_slice()
}

/// What stands behind the last LF of a text, or the whole text if it has none.
fn last_line(text: &[u8]) -> &[u8]
    ensures { result.now ≡ last_line text.now }
{
    match memrchr(b'\n', text) {
        Some(end) => &text[end + 1..],
        None => text,
    }
}

/// The output for this number of nodes, and for these scripts.
fn counted(alloc: Global, nodes: usize, scripts: &[Vec<Command>]) -> Result<Output, RunFault>
    requires { AreFew scripts.now }
    ensures line { IfOk result (λ o. o.text.items
        ≡ counts_line nodes (length scripts.now) (sum_by (λ script. length script.items) scripts.now)) }
    ensures status { IfOk result (λ o. o.status ≡ ended.Done) }
    ensures err { IfErr result (λ e. e ≡ fault.OutOfMemory) }
{
    let commands = scripts.iter().map(|script| script.len()).sum();
    let mut text = String::new(alloc);
    push_counts(&mut text, nodes, scripts.len(), commands)?;
    Ok(Output::done(text.into_bytes()))
}

fn push_counts(
    out: &mut String,
    nodes: usize,
    scripts: usize,
    commands: usize,
) -> Result<(), AllocError>
    ensures { OnOk result (string_bytes out.new ≡ string_bytes out.old ++ counts_line nodes scripts commands) }
{
    write!(
        out,
        "ok nodes {nodes} scripts {scripts} commands {commands}\n"
    )
}
