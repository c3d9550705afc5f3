//! What a run of a bundle writes.

ghost use Rattle.std.specs.Prelude.{◌≡◌, ◌⊎◌, ◌<◌, [], length, IfOk, IfErr};
ghost use Rattle.lrc_outputs.specs.Judged.{lists_of, AreFew};
ghost use Rattle.lrc_outputs.specs.OutputErrors.{IsStopped};
ghost use Rattle.lrc_outputs.specs.declared.status.Status.TheVariants as ended;
ghost use Rattle.lrc_outputs.specs.Outputs.{RunsSeveral, IsPlayed, IsOutput};
ghost use Rattle.lrc_streams.specs.declared.streams.RunFault.TheVariants as fault;

use crate::error::OutputError;
use crate::judging::judge;
use crate::output::Output;
use crate::play::play;
use crate::together::play_together;
use lrc_book::Command;
use lrc_streams::RunFault;
use lrc_topology::Topology;
use std::alloc::Global;
use std::sync::Wait;
use std::thread::Threads;

/// Runs the scripts of a bundle, and returns the output. The output reuses the bundle's memory.
///
/// # Errors
///
/// `OutOfMemory`; `NoReader` if the bundle passes all checks and has two scripts or more, and a session gets no reader
/// of the published view.
pub fn output_of<T: Threads + Wait + Sync>(
    rt: &T,
    alloc: Global,
    bundle: Vec<u8>,
) -> Result<Output, RunFault>
    ensures output { IfOk result (λ o. IsOutput bundle.items (o.text.items) o.status) }
    ensures err { IfErr result (λ e. (e ≡ fault.OutOfMemory) ⊎ ((e ≡ fault.NoReader) × RunsSeveral bundle.items)) }
{
    match run_bundle(rt, alloc, bundle) {
        Ok(text) => Ok(Output::done(text)),
        Err(error) => error.into_output(alloc),
    }
}

/// Runs the scripts of a bundle that passes all checks, and returns the text of the output.
fn run_bundle<T: Threads + Wait + Sync>(
    rt: &T,
    alloc: Global,
    bundle: Vec<u8>,
) -> Result<Vec<u8>, OutputError>
    ensures output { IfOk result (λ text. IsOutput bundle.items text.items ended.Done) }
    ensures refused { IfErr result (IsStopped (IsOutput bundle.items)
        (λ f. (f ≡ fault.OutOfMemory) ⊎ ((f ≡ fault.NoReader) × RunsSeveral bundle.items))) }
{
    let accepted = judge(alloc, bundle.as_slice())?;
    let room = emptied(bundle);
    let text = play_all(
        rt,
        alloc,
        accepted.topology,
        accepted.scripts.as_slice(),
        room,
    )?;
    Ok(text)
}

/// Removes all bytes, and keeps their memory.
fn emptied(bytes: Vec<u8>) -> Vec<u8>
    ensures { result.items ≡ [] }
{
    let mut room = bytes;
    room.clear();
    room
}

/// Runs the scripts on a new book over these nodes, and returns the output: the replies and both tables.
fn play_all<T: Threads + Wait + Sync>(
    rt: &T,
    alloc: Global,
    topology: Topology,
    scripts: &[Vec<Command>],
    room: Vec<u8>,
) -> Result<Vec<u8>, RunFault>
    requires few { AreFew scripts.now }
    requires empty { room.items ≡ [] }
    ensures played { IfOk result (λ text. IsPlayed topology (lists_of scripts.now) text.items) }
    ensures err { IfErr result (λ e. (e ≡ fault.OutOfMemory) ⊎ ((e ≡ fault.NoReader) × (1 < length scripts.now))) }
{
    if scripts.len() > 1 {
        return play_together(rt, alloc, topology, scripts, room);
    }
    play(alloc, topology, scripts, room)
}
