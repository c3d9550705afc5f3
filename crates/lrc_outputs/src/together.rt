//! Running several scripts at once, each by its own session.

ghost use Rattle.std.specs.Prelude.{◌≡◌, ◌≢◌, ◌<◌, ◌≤◌, ◌⊎◌, [], ◌++◌, length, sum_by, All};
ghost use Rattle.std.specs.Prelude.{Some, None, option_map, IfOk, OnOk, IfErr};
ghost use Rattle.lrc_code.specs.declared.fault.Fault.TheVariants as book;
ghost use Rattle.lrc_rules.specs.Histories.{first_world};
ghost use Rattle.lrc_sessions.specs.Receipts.{IsBatchIn};
ghost use Rattle.lrc_streams.specs.Faults.{run_fault};
ghost use Rattle.lrc_outputs.specs.Faults.{stop_fault, first_fault};
ghost use Rattle.lrc_outputs.specs.Judged.{lists_of, AreFew};
ghost use Rattle.lrc_outputs.specs.Plays.{AreMade, IsTrackIn, batches_text, tracks_text};
ghost use Rattle.lrc_outputs.specs.Outputs.{IsPlayed};
ghost use Rattle.lrc_streams.specs.declared.streams.RunFault.TheVariants as fault;

use lrc_book::{Book, Command, Record};
use lrc_code::SessionNo;
use lrc_sessions::{
    Batch, FinishError, Manager, Naming, OpenError, OpenGate, Parts, Stop, Track, run_sessions,
};
use lrc_streams::RunFault;
use lrc_text::{push_lines, push_script_line, with_tables};
use lrc_topology::Topology;
use std::alloc::{AllocError, Global};
use std::marker::Brand;
use std::sync::Wait;
use std::thread::Threads;

/// Room for the lines of a batch: `BATCH_LIMIT` times `LINE_ROOM`.
const BATCH_ROOM: usize = 56320;

/// The result of several scripts: the book, and the track of each.
#[derive(Drop)]
struct Played {
    book: Book,
    tracks: Vec<Track>,
}

/// Runs two to eight scripts on a new book, each by its own session, and returns the output: the replies and both
/// tables.
pub(crate) fn play_together<T: Threads + Wait + Sync>(
    rt: &T,
    alloc: Global,
    topology: Topology,
    scripts: &[Vec<Command>],
    room: Vec<u8>,
) -> Result<Vec<u8>, RunFault>
    requires several { (1 < length scripts.now) × (length scripts.now ≤ 8) }
    requires few { AreFew scripts.now }
    requires empty { room.items ≡ [] }
    ensures played { IfOk result (λ text. IsPlayed topology (lists_of scripts.now) text.items) }
    ensures err { IfErr result (λ e. (e ≡ fault.OutOfMemory) ⊎ (e ≡ fault.NoReader)) }
{
    let Ok(parts) = Parts::new(alloc, topology, scripts.len() as u8) else {
        return Err(RunFault::OutOfMemory);
    };
    let played = run_each::<Brand, _>(rt, alloc, parts, scripts)?;
    let text = print_tracks(room, played.book.history(), played.tracks.as_slice())?;
    let whole = with_tables(alloc, text, &played.book)?;
    Ok(whole)
}

/// Runs each script by its own session, and closes their manager.
fn run_each<N: Naming + Send + Sync, T: Threads + Wait + Sync>(
    rt: &T,
    alloc: Global,
    parts: Parts,
    scripts: &[Vec<Command>],
) -> Result<Played, RunFault>
    requires topology { parts.topology ≡ N.topology }
    requires limit { parts.limit ≡ N.limit }
    requires count { parts.count ≡ N.count }
    requires name { parts.name ≡ N.name }
    requires shares { parts.shares ≡ N.parts }
    requires log { (parts.log ≡ N.log) × (parts.start ≡ N.start) }
    requires scripts { (length scripts.now ≡ parts.count) × (parts.count ≤ 8) }
    // The history has room for the commands of all.
    requires few { sum_by (λ script. length script.items) scripts.now ≤ parts.limit }
    ensures nodes { IfOk result (λ p. p.book.nodes ≡ parts.topology) }
    ensures base { IfOk result (λ p. p.book.base ≡ first_world) }
    ensures tracks { IfOk result (λ p. length p.tracks.items ≤ 8) }
    ensures made { IfOk result
        (λ p. AreMade parts.topology (lists_of scripts.now) p.book.history (tracks_text p.book.history 1 p.tracks.items)) }
    ensures within { IfOk result (λ p. All (IsTrackIn p.book.history) p.tracks.items) }
    ensures err { IfErr result (λ e. (e ≡ fault.OutOfMemory) ⊎ (e ≡ fault.NoReader)) }
{
    let (manager, sessions) = match Manager::<N>::open(alloc, rt, parts) {
        Ok(opened) => opened,
        Err(OpenError::NoReader) => return Err(RunFault::NoReader),
        Err(_) => return Err(RunFault::OutOfMemory),
    };
    let (sessions, ran) = run_sessions(rt, alloc, &manager, sessions, scripts, &OpenGate);
    match manager.finish(rt, sessions) {
        Ok(closing) => Ok(Played {
            book: closing.book,
            tracks: unstopped(ran?)?,
        }),
        Err(FinishError::SessionsOut(_manager, _sessions)) => unreachable!(),
    }
}

/// Returns the tracks if no fault stopped a script; else the fault that stopped the first of those, which is
/// `OutOfMemory`.
fn unstopped(tracks: Vec<Track>) -> Result<Vec<Track>, RunFault>
    // No script met a full history.
    requires room { All (λ track. stop_fault track.stopped ≢ Some book.HistoryFull) tracks.items }
    ensures ok { IfOk result (λ v. (v.items ≡ tracks.items) × (first_fault tracks.items ≡ None)) }
    ensures first { IfErr result (λ e. option_map run_fault (first_fault tracks.items) ≡ Some e) }
    ensures err { IfErr result (λ e. e ≡ fault.OutOfMemory) }
{
    for track in tracks.as_slice() {
        if let Some(Stop::Fault(fault)) = track.stopped {
            return Err(fault.into());
        }
    }
    Ok(tracks)
}

/// Writes the lines of the tracks of the sessions from 1 on, in order.
fn print_tracks(empty: Vec<u8>, history: &[Record], tracks: &[Track]) -> Result<Vec<u8>, RunFault>
    requires few { (length tracks.now ≤ 8) × (length history.now ≤ 1000000) }
    requires within { All (IsTrackIn history.now) tracks.now }
    requires empty { empty.items ≡ [] }
    ensures text { IfOk result (λ text. text.items ≡ tracks_text history.now 1 tracks.now) }
    ensures err { IfErr result (λ e. e ≡ fault.OutOfMemory) }
{
    let mut text = empty;
    let mut room = [0u8; BATCH_ROOM];
    for (index, track) in tracks.iter().enumerate() {
        let session = SessionNo::new(index as u8 + 1).unwrap();
        push_script_line(&mut text, session)?;
        push_batches(&mut text, history, track.batches.as_slice(), &mut room)?;
    }
    Ok(text)
}

/// Adds the lines of the calls of batches. They are first written into `room`.
fn push_batches(
    out: &mut Vec<u8>,
    history: &[Record],
    batches: &[Batch],
    room: &mut [u8],
) -> Result<(), AllocError>
    requires few { length history.now ≤ 1000000 }
    requires within { All (IsBatchIn 256 history.now) batches.now }
    requires room { length room.old ≡ BATCH_ROOM }
    ensures same { length room.new ≡ length room.old }
    ensures lines { OnOk result (out.new.items ≡ out.old.items ++ batches_text history.now batches.now) }
{
    for batch in batches {
        let first = batch.first as usize;
        let records = &history[first - 1..first - 1 + batch.count as usize];
        push_lines(out, records, first, room)?;
    }
    Ok(())
}
