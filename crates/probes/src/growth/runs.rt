//! Runs of one script by the only session of a manager.

ghost use Rattle.std.specs.Prelude.{◌≡◌, ℕ, length, IfOk};
ghost use Rattle.lrc_sessions.specs.Counts.{AreAll};

use crate::growth::managers::tell_end;
use crate::growth::trial::{Host, begin, end};
use crate::stop::Stop;
use crate::store::finish;
use lrc_book::Command;
use lrc_code::Fault;
use lrc_samples::twenty_nodes;
use lrc_script::parse_script;
use lrc_sessions::{Manager, Naming, OpenGate, Parts, Session, Track, run_sessions};
use std::alloc::Global;
use std::marker::Brand;
use std::thread::Threads;

/// Returns the number of calls that a run made.
type Made = Result<usize, Stop>;

/// Runs a script, and then the rest of it if an allocation failed.
pub(crate) fn try_call<R: Host + Threads + Sync>(rt: &R, text: &str) -> Result<(), Stop> {
    let script = parse_script(rt.alloc(), text.as_bytes(), 1)?;
    let parts = Parts::new(rt.alloc(), twenty_nodes(rt.alloc())?, 1)?;
    try_of::<Brand, _>(rt, parts, script.as_slice())
}

fn try_of<N: Naming + Send + Sync, R: Host + Threads + Sync>(
    rt: &R,
    parts: Parts,
    script: &[Command],
) -> Result<(), Stop>
    requires view { (parts.topology ≡ N.topology) × (parts.limit ≡ N.limit) × (parts.log ≡ N.log) × (parts.start ≡ N.start) }
    requires tally { (parts.count ≡ N.count) × (parts.name ≡ N.name) × (parts.shares ≡ N.parts) }
    requires one { parts.count ≡ 1 }
{
    let (manager, sessions) = Manager::<N>::open(rt.alloc(), rt, parts)?;
    let (sessions, made) = run_once(rt, &manager, sessions, script, Ok(0));
    let (sessions, all) = run_once(rt, &manager, sessions, script, made);
    begin(rt);
    let closing = finish(rt, manager, sessions);
    let ended = tell_end(rt, &closing);
    drop(closing);
    all.and(ended)
}

/// Runs the rest of a script after its first calls, and returns the number of calls that this makes.
fn run_once<N: Naming + Send + Sync, R: Host + Threads + Sync>(
    rt: &R,
    manager: &Manager<N>,
    sessions: Vec<Session<N>>,
    script: &[Command],
    made: Made,
) -> (Vec<Session<N>>, Made)
    requires one { length sessions.items ≡ 1 }
    ensures one { length result.0.items ≡ 1 }
    ensures all { (count : ℕ) → AreAll count sessions.items → AreAll count result.0.items }
{
    let alloc = rt.alloc();
    match rest(alloc, script, made) {
        Ok(left) => {
            begin(rt);
            let (back, ran) = run_sessions(
                rt,
                alloc,
                manager,
                sessions,
                left.as_slice(),
                &OpenGate,
            );
            let made = tell_run(rt, &ran, back.as_slice());
            (back, made)
        }
        Err(stop) => (sessions, Err(stop)),
    }
}

/// Returns the rest of a script after its first calls, as the only script.
fn rest(alloc: Global, script: &[Command], made: Made) -> Result<Vec<Vec<Command>>, Stop>
    ensures { IfOk result (λ v. length v.items ≡ 1) }
{
    let mut left = Vec::new(alloc);
    for command in script.iter().skip(made?) {
        left.push(*command)?;
    }
    let mut scripts = Vec::with_capacity(alloc, 1)?;
    scripts.push_reserved(left);
    Ok(scripts)
}

/// Prints how a run ended and how much the session has seen, and returns the number of calls.
fn tell_run<N: Naming>(
    rt: &impl Host,
    ran: &Result<Vec<Track>, Fault>,
    sessions: &[Session<N>],
) -> Made {
    let made = match ran {
        Ok(tracks) => tell_tracks(rt, tracks.as_slice())?,
        Err(fault) => {
            end(rt, &Err::<(), Fault>(*fault))?;
            0
        }
    };
    for session in sessions {
        println!(rt; "front {}", session.front())?;
    }
    Ok(made)
}

/// Prints the only track of a run, and returns the number of its calls.
fn tell_tracks(rt: &impl Host, tracks: &[Track]) -> Made {
    end(rt, &Ok::<(), Fault>(()))?;
    let track = tracks.first().ok_or(Stop::Failed)?;
    let mut made: u64 = 0;
    for batch in track.batches.as_slice() {
        println!(rt; "{batch:?}")?;
        made = made.saturating_add(batch.count);
    }
    println!(rt; "stopped {:?}", track.stopped)?;
    Ok(made as usize)
}
