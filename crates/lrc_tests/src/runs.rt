//! What tests of scripts have in common: scripts, their runs, and what is expected after a run.

ghost use Rattle.std.specs.Prelude.{◌≡◌, ◌≤◌};

mod batches;
mod gates;
mod late;
mod limits;

use crate::close::close;
use crate::expect::expect_number;
use lrc_book::{Command, Record};
use lrc_code::{Fragment, NodeNo, SessionNo, StripeNo};
use lrc_samples::twenty_nodes;
use lrc_sessions::{
    Batch, Closing, FinishError, Gate, GateError, Manager, Naming, Parts, Receipt, Session, Stop,
    Track, run_sessions,
};
use std::alloc::Global;
use std::marker::Brand;
use std::process::Abort;
use std::sync::Wait;
use std::sync::atomic::{AtomicBool, Ordering};
use std::test::Fail;
use std::thread::Threads;

/// The sessions that the tests name.
const S1: SessionNo = SessionNo { value: 1 };

const S2: SessionNo = SessionNo { value: 2 };

/// The two stripes that the tests place.
const ONE: StripeNo = StripeNo { value: 1 };

const TWO: StripeNo = StripeNo { value: 2 };

/// The fragment of the first stripe that is leased, its node, and the node of the lease's target.
const THREE: Fragment = Fragment { value: 3 };

const NODE: NodeNo = NodeNo { value: 3 };

const TARGET: NodeNo = NodeNo { value: 17 };

/// The most looks of a held call at what it waits for: some seconds, since on a busy machine a thread may begin late.
const TURNS: u32 = 3_000_000_000;

/// The most entries of a history.
const LIMIT: u32 = 1_000_000;

/// Returns a script of each row.
fn scripts(alloc: Global, rows: &[&[Command]]) -> Result<Vec<Vec<Command>>, Fail> {
    let mut scripts = Vec::new(alloc);
    for row in rows {
        scripts.push(script(alloc, row)?)?;
    }
    Ok(scripts)
}

fn script(alloc: Global, row: &[Command]) -> Result<Vec<Command>, Fail> {
    let mut script = Vec::new(alloc);
    script.extend_from_slice(row)?;
    Ok(script)
}

/// The result of a run: what its manager left, a track of each script, and the fewest entries that a session has seen.
struct Ran {
    closing: Closing,
    tracks: Vec<Track>,
    front: u64,
}

impl Ran {
    /// Drops the result of a run.
    fn close(self) {
        let Ran {
            closing,
            tracks: _tracks,
            front: _front,
        } = self;
        close(closing);
    }
}

/// Runs a script of each row, with this limit of the history.
fn run_rows<R: Threads + Wait + Abort + Sync, G: Gate + Sync>(
    rt: &R,
    alloc: Global,
    limit: u32,
    rows: &[&[Command]],
    gate: &G,
) -> Result<Ran, Fail>
    requires { limit ≤ 1000000 }
{
    let scripts = scripts(alloc, rows)?;
    run(rt, alloc, limit, scripts.as_slice(), gate)
}

/// Runs each script by a session of its own, on a thread of its own, with this limit of the history.
fn run<R: Threads + Wait + Abort + Sync, G: Gate + Sync>(
    rt: &R,
    alloc: Global,
    limit: u32,
    scripts: &[Vec<Command>],
    gate: &G,
) -> Result<Ran, Fail>
    requires { limit ≤ 1000000 }
{
    assert!(rt; scripts.len() <= 8);
    let count = scripts.len() as u8;
    let parts = Parts::with_limit(alloc, twenty_nodes(alloc)?, count, limit)?;
    Ok(run_all::<Brand, _, _>(rt, alloc, parts, scripts, gate))
}

fn run_all<N: Naming + Send + Sync, R: Threads + Wait + Abort + Sync, G: Gate + Sync>(
    rt: &R,
    alloc: Global,
    parts: Parts,
    scripts: &[Vec<Command>],
    gate: &G,
) -> Ran
    requires topology { parts.topology ≡ N.topology }
    requires limit { parts.limit ≡ N.limit }
    requires count { parts.count ≡ N.count }
    requires name { parts.name ≡ N.name }
    requires shares { parts.shares ≡ N.parts }
    requires log { (parts.log ≡ N.log) × (parts.start ≡ N.start) }
{
    let Ok((manager, sessions)) = Manager::<N>::open(alloc, rt, parts) else {
        panic!(rt; "a manager and its sessions")
    };
    assert!(rt; sessions.len() == scripts.len());
    let (sessions, tracks) = run_sessions(rt, alloc, &manager, sessions, scripts, gate);
    let Ok(tracks) = tracks else {
        panic!(rt; "room for a run")
    };
    let front = least_front(sessions.as_slice());
    let closing = finish(rt, manager, sessions);
    Ran {
        closing,
        tracks,
        front,
    }
}

fn least_front<N: Naming>(sessions: &[Session<N>]) -> u64 {
    let mut least = u64::MAX;
    for session in sessions {
        least = least.min(session.front());
    }
    least
}

/// Ends a manager whose sessions are all there.
fn finish<N: Naming, R: Wait + Abort>(
    rt: &R,
    manager: Manager<N>,
    sessions: Vec<Session<N>>,
) -> Closing {
    match manager.finish(rt, sessions) {
        Ok(closing) => closing,
        Err(FinishError::SessionsOut(_manager, _sessions)) => panic!(rt; "all sessions"),
    }
}

/// Waits for a flag, for at most `TURNS` looks.
fn wait_for(flag: &AtomicBool) -> Result<(), GateError> {
    for _ in 0..TURNS {
        if flag.load(Ordering::SeqCst) {
            return Ok(());
        }
    }
    Err(GateError)
}

/// Expects why a script was stopped, and the number of its calls.
fn expect_track(rt: &impl Abort, track: &Track, stopped: Option<Stop>, calls: u64) {
    assert!(rt; track.stopped == stopped);
    let mut made: u64 = 0;
    for batch in track.batches.as_slice() {
        made = made.saturating_add(batch.count);
    }
    expect_number(rt, made, calls);
}

/// Expects the batches of a script.
fn expect_batches(rt: &impl Abort, track: &Track, wanted: &[Batch]) {
    assert!(rt; track.batches.as_slice() == wanted);
}

fn batch(first: u64, count: u64) -> Batch {
    Batch { first, count }
}

/// Expects these receipts of a script whose batches have one call each, and which nothing stopped.
fn expect_receipts(rt: &impl Abort, history: &[Record], track: &Track, wanted: &[Receipt]) {
    let batches = track.batches.as_slice();
    assert!(rt; batches.len() == wanted.len() && track.stopped.is_none());
    for (i, receipt) in wanted.iter().enumerate() {
        assert!(rt; batches[i] == batch(receipt.place, 1));
        expect_reply(rt, history, receipt);
    }
}

/// Expects the reply of a receipt at its place in the history.
fn expect_reply(rt: &impl Abort, history: &[Record], receipt: &Receipt) {
    let Some(record) = entry_at(history, receipt.place) else {
        panic!(rt; "an entry at the place")
    };
    assert!(rt; record.reply() == receipt.reply);
}

/// Returns the entry at a place, counted from 1.
fn entry_at(history: &[Record], place: u64) -> Option<&Record> {
    history.get(place.checked_sub(1)? as usize)
}

/// Expects these calls of each session, and an entry of the history for each.
fn expect_made(rt: &impl Abort, ran: &Ran, made: &[(SessionNo, u64)]) {
    let mut entries: u64 = 0;
    for (_, calls) in made {
        entries = entries.saturating_add(*calls);
    }
    expect_number(rt, ran.closing.book.history().len() as u64, entries);
    assert!(rt; ran.closing.made.as_slice() == made);
}
