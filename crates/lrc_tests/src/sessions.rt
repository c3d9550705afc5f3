//! Sessions of a manager over twenty-one nodes: calls by hand, and which sessions end their manager.

ghost use Rattle.std.specs.Prelude.{◌≤◌, length};

mod batches;
mod board;
pub(crate) mod leases;
mod limits;
mod looks;
mod managers;
mod scenes;

use crate::expect::expect_number;
use lrc_book::Command;
use lrc_code::{Fault, SessionNo, StripeNo};
use lrc_sessions::{Batch, Closing, FinishError, Manager, Naming, Parts, Receipt, Session};
use lrc_topology::Topology;
use std::alloc::Global;
use std::process::Abort;
use std::sync::Wait;
use std::test::Fail;

/// The sessions that the tests name.
const S1: SessionNo = SessionNo { value: 1 };

const S2: SessionNo = SessionNo { value: 2 };

/// The two stripes that the tests place.
const ONE: StripeNo = StripeNo { value: 1 };

const TWO: StripeNo = StripeNo { value: 2 };

/// The highest number that a stripe has.
const LAST: StripeNo = StripeNo { value: 4095 };

/// Returns the text of the twenty nodes of `lrc_samples` and of one with the highest number. That one is in the domains of
/// node 19, which has the lower number: so seats are taken on node 19 first.
fn text(alloc: Global) -> Result<String, Fail> {
    let mut text = String::new(alloc);
    for place in 0..21u32 {
        let number = if place < 20 { place } else { 65535 };
        let fault = place.min(19);
        let upgrade = fault % 10;
        write!(
            &mut text,
            "[[node]]\nnumber = {number}\nfault = {fault}\nupgrade = {upgrade}\nslots = 4\n"
        )?;
    }
    Ok(text)
}

/// Returns twenty-one nodes, and has no contract on them.
fn nodes(alloc: Global) -> Result<Topology, Fail> {
    let text = text(alloc)?;
    Ok(Topology::read(alloc, text.as_bytes())?)
}

fn parts(alloc: Global, count: u8) -> Result<Parts, Fail> {
    Ok(Parts::new(alloc, nodes(alloc)?, count)?)
}

/// Ends a manager whose sessions are all there.
fn finish<N: Naming, R: Wait + Abort>(
    rt: &R,
    manager: Manager<N>,
    sessions: Vec<Session<N>>,
) -> Closing {
    match manager.finish(rt, sessions) {
        Ok(closing) => closing,
        Err(FinishError::SessionsOut(_manager, _sessions)) => panic!(rt; "all sessions"),
    }
}

/// Expects these calls of each session, and an entry of the history for each.
fn expect_made(rt: &impl Abort, closing: &Closing, made: &[(SessionNo, u64)]) {
    let mut entries: u64 = 0;
    for (_, calls) in made {
        entries = entries.saturating_add(*calls);
    }
    expect_number(rt, closing.book.history().len() as u64, entries);
    assert!(rt; closing.made.as_slice() == made);
}

/// Takes the last of the sessions that are left.
fn take<N: Naming>(rt: &impl Abort, sessions: &mut Vec<Session<N>>) -> Session<N> {
    let Some(session) = sessions.pop() else {
        panic!(rt; "one more session")
    };
    session
}

/// Makes a call, for which there is room.
fn call<N: Naming, R: Wait + Abort>(
    rt: &R,
    manager: &Manager<N>,
    session: &mut Session<N>,
    command: Command,
) -> Receipt {
    match try_call(rt, manager, session, command) {
        Ok(receipt) => receipt,
        Err(_) => panic!(rt; "room for a call"),
    }
}

fn try_call<N: Naming, R: Wait>(
    rt: &R,
    manager: &Manager<N>,
    session: &mut Session<N>,
    command: Command,
) -> Result<Receipt, Fault> {
    manager.call(rt, session, command)
}

/// Makes calls in one batch.
fn call_all<N: Naming, R: Wait>(
    rt: &R,
    manager: &Manager<N>,
    session: &mut Session<N>,
    commands: &[Command],
) -> (Batch, Option<Fault>)
    requires { length commands.now ≤ 256 }
{
    manager.call_all(rt, session, commands)
}

/// Expects the numbers of entries that two sessions have seen.
fn expect_fronts<N: Naming>(
    rt: &impl Abort,
    one: &Session<N>,
    other: &Session<N>,
    counts: (u64, u64),
) {
    expect_number(rt, one.front(), counts.0);
    expect_number(rt, other.front(), counts.1);
}

/// Lets two sessions meet, and expects that each has then seen `count` entries.
fn meet<N: Naming, R: Wait + Abort>(
    rt: &R,
    manager: &Manager<N>,
    one: &mut Session<N>,
    other: &mut Session<N>,
    count: u64,
) {
    manager.meet(rt, one, other);
    expect_fronts(rt, one, other, (count, count));
}

/// Gives a session back to those that end their manager.
fn put<N: Naming>(rt: &impl Abort, sessions: &mut Vec<Session<N>>, session: Session<N>) {
    assert!(rt; sessions.push(session).is_ok());
}

/// Expects sessions 1 and 2.
fn expect_numbers<N: Naming>(rt: &impl Abort, one: &Session<N>, other: &Session<N>) {
    expect_number(rt, u64::from(one.number().get()), 1);
    expect_number(rt, u64::from(other.number().get()), 2);
}
