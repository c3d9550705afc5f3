//! A session whose lease another takes over, one call after the other.

use super::managers::expect_out;
use super::scenes::{Scene, stage};
use super::{
    ONE, S1, S2, call, expect_fronts, expect_made, expect_numbers, finish, parts, put, take,
};
use crate::close::close;
use lrc_book::{Command, Entry, Kind, Lease, Refusal, Reply, Seat};
use lrc_code::{Fragment, NodeNo, SessionNo};
use lrc_samples::first_seats;
use lrc_sessions::{Closing, Manager, Naming, Receipt, Session};
use std::process::Abort;
use std::sync::Wait;
use std::test::Fail;

/// The fragment of the first stripe that is leased, and the rest of its local group.
pub(crate) const THREE: Fragment = Fragment { value: 3 };

const OF_THREE: Kind = Kind::Local([
    Fragment { value: 0 },
    Fragment { value: 1 },
    Fragment { value: 2 },
    Fragment { value: 4 },
    Fragment { value: 5 },
    Fragment { value: 12 },
]);

/// The node that fragment 3 is on.
pub(crate) const NODE: NodeNo = NodeNo { value: 3 };

/// Returns the reply that grants the lease of the fragment on the first slot of node 17 before any tick.
pub(crate) fn granted(holder: SessionNo, epoch: u32) -> Reply {
    let lease = Lease {
        stripe: ONE,
        fragment: THREE,
        holder,
        target: Seat {
            node: NodeNo { value: 17 },
            slot: 0,
        },
        epoch,
        expiry: 3,
    };
    Reply::Granted(lease, OF_THREE)
}

fn entry(session: SessionNo, command: Command, reply: Reply) -> Entry {
    Entry {
        session,
        command,
        reply,
    }
}

/// Session 2 leases a fragment that has lost its home. Session 1 can neither lease nor report it, but it can revoke the lease
/// and then have one of its own.
fn entries() -> [Entry; 7] {
    let leased = Reply::Refused(Refusal::AlreadyLeased(1));
    let other = Reply::Refused(Refusal::NotHolder(S2));
    [
        entry(S2, Command::Place(ONE), Reply::Placed(first_seats())),
        entry(S2, Command::Fail(NODE), Reply::Changed),
        entry(S2, Command::Lease(ONE, THREE), granted(S2, 1)),
        entry(S1, Command::Lease(ONE, THREE), leased),
        entry(S1, Command::Done(ONE, THREE, 1), other),
        entry(S1, Command::Revoke(ONE, THREE), Reply::Ended),
        entry(S1, Command::Lease(ONE, THREE), granted(S1, 2)),
    ]
}

/// Both sessions make their calls, and get the replies. The first alone does not end the manager, and comes back as it was.
pub(super) fn take_over<N: Naming, R: Wait + Abort>(
    rt: &R,
    manager: Manager<N>,
    mut sessions: Vec<Session<N>>,
) -> Closing {
    let mut second = take(rt, &mut sessions);
    let mut first = take(rt, &mut sessions);
    make_calls(rt, &manager, &mut first, &mut second);
    put(rt, &mut sessions, first);
    let (manager, mut sessions) = expect_out(rt, manager, sessions, 1);
    let first = take(rt, &mut sessions);
    expect_fronts(rt, &first, &second, (7, 3));
    put(rt, &mut sessions, first);
    put(rt, &mut sessions, second);
    finish(rt, manager, sessions)
}

fn make_calls<N: Naming, R: Wait + Abort>(
    rt: &R,
    manager: &Manager<N>,
    first: &mut Session<N>,
    second: &mut Session<N>,
) {
    expect_numbers(rt, first, second);
    let entries = entries();
    for (i, entry) in entries.iter().enumerate() {
        let receipt = if entry.session == S1 {
            call(rt, manager, first, entry.command)
        } else {
            call(rt, manager, second, entry.command)
        };
        let wanted = Receipt {
            place: i as u64 + 1,
            reply: entry.reply,
        };
        assert!(rt; receipt == wanted);
    }
    expect_fronts(rt, first, second, (7, 3));
}

/// Expects these entries of the history, and the calls of each session.
fn expect_entries(rt: &impl Abort, closing: &Closing) {
    expect_made(rt, closing, &[(S1, 4), (S2, 3)]);
    let entries = entries();
    for (record, entry) in closing.book.history().iter().zip(entries.iter()) {
        assert!(rt; record.entry() == *entry);
    }
}

#[test]
fn a_lease_is_taken_over_by_another_session(rt: HostRuntime) -> Result<(), Fail> {
    let parts = parts(rt.alloc(), 2)?;
    let closing = stage(&rt, rt.alloc(), parts, Scene::TakeOver);
    expect_entries(&rt, &closing);
    close(closing);
    Ok(())
}
