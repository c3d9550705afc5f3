//! What the sessions of a manager do, one scene for each test.

ghost use Rattle.std.specs.Prelude.{◌≡◌};

use super::{S1, S2, batches, expect_made, finish, leases, looks, managers, parts, put, take};
use crate::close::close;
use lrc_code::SessionNo;
use lrc_sessions::{Closing, Manager, Naming, Parts, Session};
use std::alloc::Global;
use std::marker::Brand;
use std::process::Abort;
use std::sync::Wait;
use std::test::Fail;
use std::thread::Threads;

/// What the sessions of a manager do.
#[derive(Clone, Copy)]
pub(super) enum Scene {
    /// Each of two places a stripe, and the first comes back twice.
    PlaceInTurn,
    /// The only session comes back late.
    KeepOne,
    /// One of two takes a lease over from the other, and comes back twice.
    TakeOver,
    /// Two do this, and come back in the other order.
    Pair(Pair),
}

/// What two sessions of a manager do.
#[derive(Clone, Copy)]
pub(super) enum Pair {
    /// One makes calls, and the other looks on a thread of its own until it has seen them.
    Watch,
    /// The same with batches.
    WatchBatches,
    /// Each places a stripe, and both look.
    LookAround,
    /// One makes batches of no call, of one, and of as many as a batch can have.
    MakeBatches,
}

impl Pair {
    fn play<N: Naming + Send + Sync, R: Threads + Wait + Abort + Sync>(
        self,
        rt: &R,
        alloc: Global,
        manager: &Manager<N>,
        first: &mut Session<N>,
        second: &mut Session<N>,
    ) {
        match self {
            Pair::Watch => looks::watch(rt, manager, first, second, 1),
            Pair::LookAround => looks::look_around(rt, alloc, manager, first, second),
            Pair::MakeBatches => batches::make_batches(rt, manager, first, second),
            Pair::WatchBatches => looks::watch(rt, manager, first, second, 5),
        }
    }
}

/// Plays a scene by the sessions of a new manager, which end it.
pub(super) fn stage<R: Threads + Wait + Abort + Sync>(
    rt: &R,
    alloc: Global,
    parts: Parts,
    scene: Scene,
) -> Closing {
    play::<Brand, _>(rt, alloc, parts, scene)
}

fn play<N: Naming + Send + Sync, R: Threads + Wait + Abort + Sync>(
    rt: &R,
    alloc: Global,
    parts: Parts,
    scene: Scene,
) -> Closing
    requires topology { parts.topology ≡ N.topology }
    requires limit { parts.limit ≡ N.limit }
    requires count { parts.count ≡ N.count }
    requires name { parts.name ≡ N.name }
    requires shares { parts.shares ≡ N.parts }
    requires log { (parts.log ≡ N.log) × (parts.start ≡ N.start) }
{
    let Ok((manager, sessions)) = Manager::<N>::open(alloc, rt, parts) else {
        panic!(rt; "a manager and its sessions")
    };
    match scene {
        Scene::PlaceInTurn => managers::place_in_turn(rt, manager, sessions),
        Scene::KeepOne => managers::keep_one(rt, manager, sessions),
        Scene::TakeOver => leases::take_over(rt, manager, sessions),
        Scene::Pair(pair) => by_two(rt, alloc, manager, sessions, pair),
    }
}

fn by_two<N: Naming + Send + Sync, R: Threads + Wait + Abort + Sync>(
    rt: &R,
    alloc: Global,
    manager: Manager<N>,
    mut sessions: Vec<Session<N>>,
    pair: Pair,
) -> Closing {
    let mut second = take(rt, &mut sessions);
    let mut first = take(rt, &mut sessions);
    pair.play(rt, alloc, &manager, &mut first, &mut second);
    put(rt, &mut sessions, second);
    put(rt, &mut sessions, first);
    finish(rt, manager, sessions)
}

/// Plays a scene by a session for each of these rows, and expects these numbers of calls.
pub(super) fn expect_scene<R: Threads + Wait + Abort + Sync>(
    rt: &R,
    alloc: Global,
    scene: Scene,
    made: &[(SessionNo, u64)],
) -> Result<(), Fail> {
    assert!(rt; made.len() <= 8);
    let closing = stage(rt, alloc, parts(alloc, made.len() as u8)?, scene);
    expect_made(rt, &closing, made);
    close(closing);
    Ok(())
}

/// Plays what two sessions do, and expects these numbers of calls.
pub(super) fn expect_pair<R: Threads + Wait + Abort + Sync>(
    rt: &R,
    alloc: Global,
    pair: Pair,
    calls: (u64, u64),
) -> Result<(), Fail> {
    expect_scene(
        rt,
        alloc,
        Scene::Pair(pair),
        &[(S1, calls.0), (S2, calls.1)],
    )
}
