//! Calls of a session in one batch, and what another session sees of it.

use super::looks::level_of;
use super::scenes::{Pair, expect_pair};
use super::{ONE, call_all, expect_fronts};
use lrc_book::{Command, Level};
use lrc_code::NodeNo;
use lrc_sessions::{Batch, Manager, Naming, Session};
use std::process::Abort;
use std::sync::Wait;
use std::test::Fail;

/// A batch of a stripe that is placed and loses a fragment.
const LOSE: [Command; 3] = [
    Command::Place(ONE),
    Command::Fail(NodeNo { value: 3 }),
    Command::Next,
];

/// The most commands of a batch.
const FULL: [Command; 256] = [Command::Next; 256];

/// Makes a batch, and expects where its calls stand and that no fault ended it.
pub(super) fn expect_batch<N: Naming, R: Wait + Abort>(
    rt: &R,
    manager: &Manager<N>,
    session: &mut Session<N>,
    commands: &[Command],
    first: u64,
) {
    assert!(rt; commands.len() <= 256);
    let (batch, fault) = call_all(rt, manager, session, commands);
    let count = commands.len() as u64;
    assert!(rt; batch == Batch { first, count } && fault.is_none());
}

#[test]
fn a_batch_has_up_to_256_calls(rt: HostRuntime) -> Result<(), Fail> {
    expect_pair(&rt, rt.alloc(), Pair::MakeBatches, (260, 0))
}

/// A batch without a call shows the session what the other one made.
pub(super) fn make_batches<N: Naming, R: Wait + Abort>(
    rt: &R,
    manager: &Manager<N>,
    first: &mut Session<N>,
    second: &mut Session<N>,
) {
    expect_batch(rt, manager, first, &[], 1);
    expect_fronts(rt, first, second, (0, 0));
    expect_batch(rt, manager, first, &LOSE, 1);
    expect_at_risk(rt, second, 3);
    expect_batch(rt, manager, first, &[Command::Next], 4);
    expect_batch(rt, manager, first, &FULL, 5);
    expect_fronts(rt, first, second, (260, 3));
    expect_batch(rt, manager, second, &[], 261);
    expect_fronts(rt, first, second, (260, 260));
}

/// Expects that a session sees `front` entries, and the stripe without one fragment.
fn expect_at_risk<N: Naming>(rt: &impl Abort, session: &mut Session<N>, front: u64) {
    assert!(rt; level_of(rt, session, ONE) == (front, Some(Level::AtRisk(2))));
}
