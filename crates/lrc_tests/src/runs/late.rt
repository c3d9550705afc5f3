//! A worker that reports its repair after another session took its lease over.

ghost use Rattle.std.specs.Prelude.{⊤};

use super::{
    LIMIT, NODE, ONE, Ran, S1, S2, TARGET, THREE, expect_made, expect_receipts, run_rows, wait_for,
};
use lrc_book::{Command, Kind, Lease, Refusal, Reply, Seat};
use lrc_code::{Fragment, SessionNo};
use lrc_samples::first_seats;
use lrc_sessions::{Gate, GateError, Receipt};
use std::process::Abort;
use std::sync::atomic::{AtomicBool, Ordering};
use std::test::Fail;

/// The target of each lease of the fragment.
const SEAT: Seat = Seat {
    node: TARGET,
    slot: 0,
};

/// Returns the reply that grants a lease of the fragment.
pub(super) fn granted(expiry: u32, holder: SessionNo, epoch: u32) -> Reply {
    let lease = Lease {
        stripe: ONE,
        fragment: THREE,
        holder,
        target: SEAT,
        epoch,
        expiry,
    };
    // (the rest of the local group of fragment 3)
    let all = Fragment::all();
    let sources = [all[0], all[1], all[2], all[4], all[5], all[12]];
    Reply::Granted(lease, Kind::Local(sources))
}

/// A gate that holds session 2 until it is notified of the lease of session 1, and the report of session 1 until it is
/// notified of both calls of session 2. It is notified of a call after it was made, so when notified of the lease it can wait
/// until that is revoked.
#[derive(Drop)]
struct Takeover {
    leased: AtomicBool,
    revoked: AtomicBool,
    taken: AtomicBool,
    gave_up: AtomicBool,
}

impl Takeover {
    fn new() -> Takeover {
        Takeover {
            leased: AtomicBool::new(false),
            revoked: AtomicBool::new(false),
            taken: AtomicBool::new(false),
            gave_up: AtomicBool::new(false),
        }
    }

    /// Waits for a flag, and notes if it does not come.
    fn hold_until(&self, flag: &AtomicBool) -> Result<(), GateError> {
        let came = wait_for(flag);
        if came.is_err() {
            self.gave_up.store(true, Ordering::SeqCst);
        }
        came
    }
}

impl Gate for Takeover {
    ghost use Rattle.std.specs.Prelude.{⊤};

    ghost most = { 1 };

    ghost may_stop = { ⊤ };

    ghost lets = { λ _ _. ⊤ };

    ghost tells = { λ _ _. ⊤ };

    fn before(&self, session: SessionNo, n: u64) -> Result<(), GateError> {
        match (session.get(), n) {
            (2, 1) => self.hold_until(&self.leased),
            (2, 2) => {
                self.revoked.store(true, Ordering::SeqCst);
                Ok(())
            }
            (1, 4) => self.hold_until(&self.taken),
            _ => Ok(()),
        }
    }

    fn after(&self, session: SessionNo, n: u64) {
        match (session.get(), n) {
            (1, 3) => {
                self.leased.store(true, Ordering::SeqCst);
                let _ = self.hold_until(&self.revoked);
            }
            (2, 2) => self.taken.store(true, Ordering::SeqCst),
            _ => {}
        }
    }

    fn batch_limit(&self) -> usize {
        1
    }
}

/// A worker comes too late: it reports a repair when another session has its lease.
#[test]
fn a_late_report_is_refused_on_two_threads(rt: HostRuntime) -> Result<(), Fail> {
    let late = [
        Command::Place(ONE),
        Command::Fail(NODE),
        Command::Lease(ONE, THREE),
        Command::Done(ONE, THREE, 1),
    ];
    let other = [Command::Revoke(ONE, THREE), Command::Lease(ONE, THREE)];
    let gate = Takeover::new();
    let rows = [late.as_slice(), other.as_slice()];
    let ran = run_rows(&rt, rt.alloc(), LIMIT, &rows, &gate)?;
    expect_late(&rt, &gate, &ran);
    ran.close();
    Ok(())
}

/// Expects the report after all other calls, and no call that was held in vain.
fn expect_late(rt: &impl Abort, gate: &Takeover, ran: &Ran) {
    assert!(rt; ran.tracks.len() == 2);
    assert!(rt; !gate.gave_up.load(Ordering::SeqCst));
    let history = ran.closing.book.history();
    let late = [
        receipt(1, Reply::Placed(first_seats())),
        receipt(2, Reply::Changed),
        receipt(3, granted(3, S1, 1)),
        receipt(6, Reply::Refused(Refusal::Stale)),
    ];
    expect_receipts(rt, history, &ran.tracks[0], &late);
    let other = [receipt(4, Reply::Ended), receipt(5, granted(3, S2, 2))];
    expect_receipts(rt, history, &ran.tracks[1], &other);
    expect_made(rt, ran, &[(S1, 4), (S2, 2)]);
}

fn receipt(place: u64, reply: Reply) -> Receipt {
    Receipt { place, reply }
}
