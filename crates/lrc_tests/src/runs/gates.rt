//! Scripts that only as many threads can end.

ghost use Rattle.std.specs.Prelude.{⊤};

use super::{LIMIT, ONE, Ran, S1, S2, TURNS, TWO, expect_made, expect_track, run_rows};
use crate::expect::expect_number;
use lrc_book::Command;
use lrc_code::SessionNo;
use lrc_sessions::{Gate, GateError};
use std::process::Abort;
use std::sync::atomic::{AtomicBool, AtomicU64, Ordering};
use std::test::Fail;

/// A gate that holds call `call` of each session until it was asked for that call of `wanted` sessions.
#[derive(Drop)]
struct Meeting {
    call: u64,
    wanted: u64,
    held: AtomicU64,
    asked: AtomicU64,
    notified: AtomicU64,
    gave_up: AtomicBool,
}

impl Meeting {
    fn of(call: u64, wanted: u64) -> Meeting {
        Meeting {
            call,
            wanted,
            held: AtomicU64::new(0),
            asked: AtomicU64::new(0),
            notified: AtomicU64::new(0),
            gave_up: AtomicBool::new(false),
        }
    }
}

impl Gate for Meeting {
    ghost use Rattle.std.specs.Prelude.{⊤};

    ghost most = { 1 };

    ghost may_stop = { ⊤ };

    ghost lets = { λ _ _. ⊤ };

    ghost tells = { λ _ _. ⊤ };

    fn before(&self, _session: SessionNo, n: u64) -> Result<(), GateError> {
        self.asked.fetch_add(1, Ordering::SeqCst);
        if n != self.call {
            return Ok(());
        }
        self.held.fetch_add(1, Ordering::SeqCst);
        for _ in 0..TURNS {
            if self.held.load(Ordering::SeqCst) >= self.wanted {
                return Ok(());
            }
        }
        self.gave_up.store(true, Ordering::SeqCst);
        Err(GateError)
    }

    fn after(&self, _session: SessionNo, _n: u64) {
        self.notified.fetch_add(1, Ordering::SeqCst);
    }

    fn batch_limit(&self) -> usize {
        1
    }
}

/// The first script places two stripes, the second asks twice for the next lease. The second call of each waits for that of the
/// other.
#[test]
fn two_scripts_run_on_two_threads(rt: HostRuntime) -> Result<(), Fail> {
    let places = [Command::Place(ONE), Command::Place(TWO)];
    let leases = [Command::Next, Command::Next];
    let gate = Meeting::of(2, 2);
    let rows = [places.as_slice(), leases.as_slice()];
    let ran = run_rows(&rt, rt.alloc(), LIMIT, &rows, &gate)?;
    expect_met(&rt, &gate, &ran, 2);
    expect_made(&rt, &ran, &[(S1, 2), (S2, 2)]);
    ran.close();
    Ok(())
}

/// The call of each waits until all eight are asked for.
#[test]
fn eight_scripts_run_on_eight_threads(rt: HostRuntime) -> Result<(), Fail> {
    let one = [Command::Next];
    let gate = Meeting::of(1, 8);
    let ran = run_rows(&rt, rt.alloc(), LIMIT, &[one.as_slice(); 8], &gate)?;
    expect_met(&rt, &gate, &ran, 1);
    ran.close();
    Ok(())
}

/// Expects that all sessions met, that each made `calls` calls, and that the gate was asked for and notified of all.
fn expect_met(rt: &impl Abort, gate: &Meeting, ran: &Ran, calls: u64) {
    let all = calls.saturating_mul(gate.wanted);
    assert!(rt; ran.tracks.len() as u64 == gate.wanted);
    for track in ran.tracks.iter() {
        expect_track(rt, track, None, calls);
    }
    assert!(rt; !gate.gave_up.load(Ordering::SeqCst));
    expect_number(rt, gate.asked.load(Ordering::SeqCst), all);
    expect_number(rt, gate.notified.load(Ordering::SeqCst), all);
    expect_number(rt, ran.closing.book.history().len() as u64, all);
}
