//! What sessions see of each other's calls, without the lock.

use super::batches::expect_batch;
use super::scenes::{Pair, expect_pair};
use super::{LAST, ONE, call, expect_fronts, meet};
use lrc_book::{Command, Level};
use lrc_code::{NodeNo, StripeNo};
use lrc_sessions::{Manager, Naming, Session};
use std::alloc::Global;
use std::process::Abort;
use std::sync::Wait;
use std::test::Fail;
use std::thread::{Threads, join};

/// The calls of one session while another looks.
const CALLS: u64 = 50;

/// The calls of a batch.
const FIVE: [Command; 5] = [Command::Next; 5];

/// The most looks of the other.
const LOOKS: u32 = 100_000_000;

#[test]
fn a_session_sees_the_calls_of_another(rt: HostRuntime) -> Result<(), Fail> {
    expect_pair(&rt, rt.alloc(), Pair::Watch, (CALLS, 0))
}

#[test]
fn a_session_sees_whole_batches_of_another(rt: HostRuntime) -> Result<(), Fail> {
    expect_pair(&rt, rt.alloc(), Pair::WatchBatches, (CALLS, 0))
}

/// One session makes calls, `many` at once, and another looks on a thread of its own until it has seen them. Then they
/// meet.
pub(super) fn watch<N: Naming + Send + Sync, R: Threads + Wait + Abort + Sync>(
    rt: &R,
    manager: &Manager<N>,
    first: &mut Session<N>,
    second: &mut Session<N>,
    many: u64,
) {
    call_and_look(rt, manager, first, second, many);
    expect_fronts(rt, first, second, (CALLS, CALLS));
    meet(rt, manager, first, second, CALLS);
}

/// One session makes all calls, while the other looks until it has seen them.
fn call_and_look<N: Naming + Send + Sync, R: Threads + Wait + Abort + Sync>(
    rt: &R,
    manager: &Manager<N>,
    first: &mut Session<N>,
    second: &mut Session<N>,
    many: u64,
) {
    join(
        rt,
        || call_again(rt, manager, first, many),
        || look_until_seen(rt, second, many),
    );
}

/// Makes all calls: each alone, or five in a batch.
fn call_again<N: Naming, R: Wait + Abort>(
    rt: &R,
    manager: &Manager<N>,
    session: &mut Session<N>,
    many: u64,
) {
    if many == 1 {
        for _ in 0..CALLS {
            call(rt, manager, session, Command::Next);
        }
        return;
    }
    for before in 0..CALLS / 5 {
        expect_batch(rt, manager, session, &FIVE, before * 5 + 1);
    }
}

/// Looks until all calls are seen. Each look has a view, which shows calls that were made at once together, and the number of
/// entries that are seen never falls.
fn look_until_seen<N: Naming>(rt: &impl Abort, session: &mut Session<N>, many: u64) {
    let mut front: u64 = 0;
    for _ in 0..LOOKS {
        let (seen, level) = level_of(rt, session, ONE);
        assert!(rt; seen >= front && level.is_none());
        assert!(rt; seen.checked_rem(many) == Some(0));
        front = seen;
        if front == CALLS {
            return;
        }
    }
    panic!(rt; "calls that were not seen")
}

#[test]
fn looks_show_what_was_placed(rt: HostRuntime) -> Result<(), Fail> {
    expect_pair(&rt, rt.alloc(), Pair::LookAround, (1, 1))
}

/// Each of two sessions places a stripe. The other sees the stripe of one without a call of its own. After they met, each sees
/// both.
pub(super) fn look_around<N: Naming, R: Wait + Abort>(
    rt: &R,
    alloc: Global,
    manager: &Manager<N>,
    first: &mut Session<N>,
    second: &mut Session<N>,
) {
    expect_fronts(rt, first, second, (0, 0));
    call(rt, manager, first, Command::Place(ONE));
    expect_fronts(rt, first, second, (1, 0));
    expect_whole(rt, first, ONE, 1);
    expect_whole(rt, second, ONE, 1);
    call(rt, manager, second, Command::Place(LAST));
    meet(rt, manager, first, second, 2);
    expect_both_placed(rt, alloc, first);
}

/// Expects that a session sees `front` entries, and this stripe whole.
fn expect_whole<N: Naming>(
    rt: &impl Abort,
    session: &mut Session<N>,
    stripe: StripeNo,
    front: u64,
) {
    assert!(rt; level_of(rt, session, stripe) == (front, Some(Level::Whole)));
}

/// Expects that a session sees the second stripe, the seats on a node of it alone and on one of both, and no stripe at risk.
fn expect_both_placed<N: Naming>(rt: &impl Abort, alloc: Global, session: &mut Session<N>) {
    expect_whole(rt, session, LAST, 2);
    expect_load(rt, session, 15, Some(1));
    expect_load(rt, session, 0, Some(2));
    expect_load(rt, session, u16::MAX, Some(0));
    expect_load(rt, session, 99, None);
    assert!(rt; at_risk(rt, alloc, session) == (2, 0));
}

/// Expects that a session sees two entries, and these seats on a node.
fn expect_load<N: Naming>(
    rt: &impl Abort,
    session: &mut Session<N>,
    number: u16,
    seats: Option<u32>,
) {
    assert!(rt; load_of(rt, session, NodeNo { value: number }) == (2, seats));
}

/// Returns the number of entries that a look at a stripe's level sees, and the level.
pub(super) fn level_of<N: Naming>(
    rt: &impl Abort,
    session: &mut Session<N>,
    stripe: StripeNo,
) -> (u64, Option<Level>) {
    match session.level_of(stripe) {
        Ok(seen) => (seen.front, seen.value),
        Err(_) => panic!(rt; "a view"),
    }
}

/// Returns the number of entries that a look at a node's load sees, and the load.
fn load_of<N: Naming>(
    rt: &impl Abort,
    session: &mut Session<N>,
    node: NodeNo,
) -> (u64, Option<u32>) {
    match session.load_of(node) {
        Ok(seen) => (seen.front, seen.value),
        Err(_) => panic!(rt; "a view"),
    }
}

/// Returns the number of entries that a look at the stripes at risk sees, and the number of these stripes.
fn at_risk<N: Naming>(rt: &impl Abort, alloc: Global, session: &mut Session<N>) -> (u64, usize) {
    match session.risk(alloc) {
        Ok(seen) => (seen.front, seen.value.len()),
        Err(_) => panic!(rt; "room and a view"),
    }
}
