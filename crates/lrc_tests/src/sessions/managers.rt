//! Which sessions end their manager.

use super::scenes::{Scene, expect_scene};
use super::{ONE, S1, S2, TWO, call, expect_fronts, expect_numbers, finish, meet, put, take};
use lrc_book::{Command, Reply, Seat};
use lrc_code::{SessionNo, StripeNo};
use lrc_samples::{first_seats, second_seats};
use lrc_sessions::{Closing, FinishError, Manager, Naming, Receipt, Session};
use std::process::Abort;
use std::sync::Wait;
use std::test::Fail;

/// Places a stripe, and expects this receipt.
fn expect_placed<N: Naming, R: Wait + Abort>(
    rt: &R,
    manager: &Manager<N>,
    session: &mut Session<N>,
    stripe: StripeNo,
    wanted: &Receipt,
) {
    assert!(rt; call(rt, manager, session, Command::Place(stripe)) == *wanted);
}

fn placed(place: u64, seats: [Seat; 16]) -> Receipt {
    Receipt {
        place,
        reply: Reply::Placed(seats),
    }
}

#[test]
fn two_sessions_place_a_stripe_each(rt: HostRuntime) -> Result<(), Fail> {
    expect_scene(&rt, rt.alloc(), Scene::PlaceInTurn, &[(S1, 1), (S2, 1)])
}

/// Each of two sessions places a stripe, one after the other. The first alone does not end the manager, and comes back as it was.
pub(super) fn place_in_turn<N: Naming, R: Wait + Abort>(
    rt: &R,
    manager: Manager<N>,
    mut sessions: Vec<Session<N>>,
) -> Closing {
    let mut second = take(rt, &mut sessions);
    let mut first = take(rt, &mut sessions);
    expect_numbers(rt, &first, &second);
    expect_placed(rt, &manager, &mut first, ONE, &placed(1, first_seats()));
    expect_placed(rt, &manager, &mut second, TWO, &placed(2, second_seats()));
    put(rt, &mut sessions, first);
    let (manager, mut sessions) = expect_out(rt, manager, sessions, 1);
    let first = take(rt, &mut sessions);
    expect_numbers(rt, &first, &second);
    expect_fronts(rt, &first, &second, (1, 2));
    put(rt, &mut sessions, first);
    put(rt, &mut sessions, second);
    finish(rt, manager, sessions)
}

/// Expects that these sessions, `count` of them, do not end the manager, and returns all.
pub(super) fn expect_out<N: Naming, R: Wait + Abort>(
    rt: &R,
    manager: Manager<N>,
    sessions: Vec<Session<N>>,
    count: usize,
) -> (Manager<N>, Vec<Session<N>>) {
    match manager.finish(rt, sessions) {
        Ok(_) => panic!(rt; "a session is out"),
        Err(FinishError::SessionsOut(manager, sessions)) => {
            assert!(rt; sessions.len() == count);
            (manager, sessions)
        }
    }
}

#[test]
fn no_session_ends_no_manager(rt: HostRuntime) -> Result<(), Fail> {
    expect_scene(&rt, rt.alloc(), Scene::KeepOne, &[(S1, 0)])
}

/// The manager goes on without its only session.
pub(super) fn keep_one<N: Naming, R: Wait + Abort>(
    rt: &R,
    manager: Manager<N>,
    mut sessions: Vec<Session<N>>,
) -> Closing {
    let only = take(rt, &mut sessions);
    let (manager, mut sessions) = expect_out(rt, manager, sessions, 0);
    put(rt, &mut sessions, only);
    finish(rt, manager, sessions)
}
