//! Batches: how many calls one has, where they stand, and where one ends before its time.

ghost use Rattle.std.specs.Prelude.{⊤};

use super::{LIMIT, Ran, S1, S2, batch, expect_batches, expect_made, expect_track, run_rows};
use crate::expect::expect_number;
use lrc_book::Command;
use lrc_code::{Fault, SessionNo};
use lrc_sessions::{Batch, Gate, GateError, OpenGate, Stop};
use std::process::Abort;
use std::sync::atomic::{AtomicU64, Ordering};
use std::test::Fail;

/// The calls of two scripts: two full batches and one of 88 calls, and a full one and one of 44.
const LONG: usize = 600;

const SHORT: usize = 300;

#[test]
fn two_scripts_run_in_batches_of_256_calls(rt: HostRuntime) -> Result<(), Fail> {
    let long = [Command::Next; LONG];
    let short = [Command::Next; SHORT];
    let rows = [long.as_slice(), short.as_slice()];
    let ran = run_rows(&rt, rt.alloc(), LIMIT, &rows, &OpenGate)?;
    expect_two(&rt, &ran);
    ran.close();
    Ok(())
}

fn expect_two(rt: &impl Abort, ran: &Ran) {
    assert!(rt; ran.tracks.len() == 2);
    expect_track(rt, &ran.tracks[0], None, LONG as u64);
    expect_track(rt, &ran.tracks[1], None, SHORT as u64);
    expect_counts(rt, ran.tracks[0].batches.as_slice(), &[256, 256, 88]);
    expect_counts(rt, ran.tracks[1].batches.as_slice(), &[256, 44]);
    expect_made(rt, ran, &[(S1, LONG as u64), (S2, SHORT as u64)]);
}

/// Expects the numbers of calls of batches.
fn expect_counts(rt: &impl Abort, batches: &[Batch], wanted: &[u64]) {
    assert!(rt; batches.len() == wanted.len());
    for (i, count) in wanted.iter().enumerate() {
        expect_number(rt, batches[i].count, *count);
    }
}

/// A gate that stops call `stops` of a session. It adds up the numbers of the calls that it was asked for and notified
/// of.
#[derive(Drop)]
pub(super) struct Early {
    limit: usize,
    stops: u64,
    asked: AtomicU64,
    notified: AtomicU64,
}

impl Early {
    pub(super) fn at(limit: usize, stops: u64) -> Early {
        Early {
            limit,
            stops,
            asked: AtomicU64::new(0),
            notified: AtomicU64::new(0),
        }
    }
}

impl Gate for Early {
    ghost use Rattle.std.specs.Prelude.{⊤};

    ghost most = { 256 };

    ghost may_stop = { ⊤ };

    ghost lets = { λ _ _. ⊤ };

    ghost tells = { λ _ _. ⊤ };

    fn before(&self, _session: SessionNo, n: u64) -> Result<(), GateError> {
        self.asked.fetch_add(n, Ordering::SeqCst);
        if n == self.stops {
            return Err(GateError);
        }
        Ok(())
    }

    fn after(&self, _session: SessionNo, n: u64) {
        self.notified.fetch_add(n, Ordering::SeqCst);
    }

    fn batch_limit(&self) -> usize {
        self.limit.max(1).min(256)
    }
}

/// The gate stops the second call of the second batch of four.
#[test]
fn a_gate_stops_a_script_within_a_batch(rt: HostRuntime) -> Result<(), Fail> {
    let leases = [Command::Next; 10];
    let gate = Early::at(4, 6);
    let ran = run_rows(&rt, rt.alloc(), LIMIT, &[leases.as_slice()], &gate)?;
    expect_ended(&rt, &ran, Stop::Gate, &[batch(1, 4), batch(5, 1)], 5);
    expect_told(&rt, &gate, 1 + 2 + 3 + 4 + 5 + 6, 1 + 2 + 3 + 4 + 5);
    ran.close();
    Ok(())
}

/// The gate stops the first call of the second batch of four. The other script has fewer calls, and ends.
#[test]
fn a_gate_stops_a_script_between_batches(rt: HostRuntime) -> Result<(), Fail> {
    let many = [Command::Next; 10];
    let few = [Command::Next; 3];
    let gate = Early::at(4, 5);
    let rows = [many.as_slice(), few.as_slice()];
    let ran = run_rows(&rt, rt.alloc(), LIMIT, &rows, &gate)?;
    expect_stopped(&rt, &ran);
    expect_told(
        &rt,
        &gate,
        1 + 2 + 3 + 4 + 5 + 1 + 2 + 3,
        1 + 2 + 3 + 4 + 1 + 2 + 3,
    );
    ran.close();
    Ok(())
}

/// Expects that the first script was stopped after its first batch, and the second by nothing.
fn expect_stopped(rt: &impl Abort, ran: &Ran) {
    assert!(rt; ran.tracks.len() == 2);
    expect_track(rt, &ran.tracks[0], Some(Stop::Gate), 4);
    expect_track(rt, &ran.tracks[1], None, 3);
    expect_made(rt, ran, &[(S1, 4), (S2, 3)]);
}

/// The history has room for two calls of the second batch of four.
#[test]
fn a_history_gets_full_within_a_batch(rt: HostRuntime) -> Result<(), Fail> {
    let leases = [Command::Next; 10];
    let gate = Early::at(4, 100);
    let ran = run_rows(&rt, rt.alloc(), 6, &[leases.as_slice()], &gate)?;
    let full = Stop::Fault(Fault::HistoryFull);
    expect_ended(&rt, &ran, full, &[batch(1, 4), batch(5, 2)], 6);
    let notified = 1 + 2 + 3 + 4 + 5 + 6;
    expect_told(&rt, &gate, notified + 7 + 8, notified);
    ran.close();
    Ok(())
}

/// Expects why the only script was stopped, its batches, and that its session has seen all of its calls.
pub(super) fn expect_ended(
    rt: &impl Abort,
    ran: &Ran,
    stopped: Stop,
    batches: &[Batch],
    calls: u64,
) {
    assert!(rt; ran.tracks.len() == 1);
    expect_number(rt, ran.front, calls);
    expect_track(rt, &ran.tracks[0], Some(stopped), calls);
    expect_batches(rt, &ran.tracks[0], batches);
    expect_made(rt, ran, &[(S1, calls)]);
}

/// Expects the sums of the numbers of the calls that a gate was asked for and notified of.
pub(super) fn expect_told(rt: &impl Abort, gate: &Early, asked: u64, notified: u64) {
    expect_number(rt, gate.asked.load(Ordering::SeqCst), asked);
    expect_number(rt, gate.notified.load(Ordering::SeqCst), notified);
}
