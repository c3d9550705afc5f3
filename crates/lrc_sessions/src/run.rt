ghost use Rattle.std.specs.Prelude.{◌≡◌, ℕ, ◌*◌, ◌<◌, ◌≤◌, [], length, vec_capacity, slice_index_or, IfOk, IfErr};
ghost use Rattle.lrc_code.specs.declared.fault.Fault.TheVariants as fault;
ghost use Rattle.lrc_sessions.specs.Buffers.{HaveRoomFor};
ghost use Rattle.lrc_sessions.specs.Runs.{Passes, IsRunInBatches, AreRun};

use crate::gate::Gate;
use crate::manager::Manager;
use crate::naming::Naming;
use crate::run_buffers::{RunBuffers, collect_results};
use crate::session::Session;
use crate::track::Track;
use crate::worker::Worker;
use lrc_book::Command;
use lrc_code::Fault;
use std::alloc::Global;
use std::sync::Wait;
use std::thread;
use std::thread::Threads;

/// Runs script `i` by session `i`, each on a thread of its own if the system starts one, and returns the sessions in
/// their order. It makes the calls of a session in batches of at most the gate's limit, each under one lock; the
/// batches of the sessions interleave. A script stops at its first call that returns a `Fault`, or where the gate stops
/// it.
///
/// # Errors
///
/// Only `Fault::OutOfMemory`, before any call.
pub fn run_sessions<N: Naming + Send + Sync, R: Threads + Wait + Sync, G: Gate + Sync>(
    rt: &R,
    alloc: Global,
    manager: &Manager<N>,
    mut sessions: Vec<Session<N>>,
    scripts: &[Vec<Command>],
    gate: &G,
) -> (Vec<Session<N>>, Result<Vec<Track>, Fault>)
    requires { length sessions.items ≡ length scripts.now }
    ensures ok { IfOk result.1 (λ tracks. AreRun N.limit G.most G.may_stop (Passes G.lets G.tells) scripts.now
        sessions.items result.0.items tracks.items) }
    ensures err { IfErr result.1 (λ e. (e ≡ fault.OutOfMemory) × (result.0 ≡ sessions)) }
{
    let most = gate.batch_limit();
    match RunBuffers::new(alloc, scripts, most) {
        Ok(buffers) => {
            let tracks = run_in(rt, manager, &mut sessions, buffers, scripts, gate, most);
            (sessions, Ok(tracks))
        }
        Err(fault) => (sessions, Err(fault)),
    }
}

/// Runs script `i` by session `i`, with at most `most` calls in each batch, in memory that was allocated before.
fn run_in<N: Naming + Send + Sync, R: Threads + Wait + Sync, G: Gate + Sync>(
    rt: &R,
    manager: &Manager<N>,
    sessions: &mut Vec<Session<N>>,
    buffers: RunBuffers<N>,
    scripts: &[Vec<Command>],
    gate: &G,
    most: usize,
) -> Vec<Track>
    requires sessions { (length sessions.old.items ≡ length scripts.now) × (length scripts.now ≤ vec_capacity sessions.old) }
    requires batches { HaveRoomFor most scripts.now buffers.batches.items }
    requires most { (1 ≤ most) × (most ≤ G.most) × (most ≤ 256) }
    requires workers { (buffers.workers.items ≡ []) × (length scripts.now ≤ vec_capacity buffers.workers) }
    requires tracks { (buffers.tracks.items ≡ []) × (length scripts.now ≤ vec_capacity buffers.tracks) }
    ensures { AreRun N.limit G.most G.may_stop (Passes G.lets G.tells) scripts.now
        sessions.old.items sessions.new.items result.items }
{
    let (mut workers, mut tracks) = buffers.assign_sessions(sessions);
    run_workers(rt, manager, &mut workers, scripts, gate, most);
    collect_results(workers, sessions, &mut tracks);
    tracks
}

/// Runs each worker on its script, each on a thread of its own if the system starts one.
fn run_workers<N: Naming + Send + Sync, R: Threads + Wait + Sync, G: Gate + Sync>(
    rt: &R,
    manager: &Manager<N>,
    workers: &mut Vec<Worker<N>>,
    scripts: &[Vec<Command>],
    gate: &G,
    most: usize,
)
    requires same { length workers.old.items ≡ length scripts.now }
    requires empty { (i : ℕ) (w : _) → i < length scripts.now
        → (slice_index_or workers.old.items i w).batches.items ≡ [] }
    requires room { (i : ℕ) (w : _) (s : _) → i < length scripts.now
        → length (slice_index_or scripts.now i s).items
        ≤ vec_capacity (slice_index_or workers.old.items i w).batches * most }
    requires most { (1 ≤ most) × (most ≤ G.most) × (most ≤ 256) }
    ensures same { length workers.new.items ≡ length scripts.now }
    ensures run { (i : ℕ) (w : _) (s : _) → i < length scripts.now
        → IsRunInBatches N.limit G.most G.may_stop (Passes G.lets G.tells) (slice_index_or scripts.now i s).items
        (slice_index_or workers.old.items i w).session (slice_index_or workers.new.items i w).session
        (slice_index_or workers.new.items i w).batches.items (slice_index_or workers.new.items i w).stopped }
{
    if workers.is_empty() {
        return;
    }
    let threads = workers.len();
    thread::for_each_mut(
        rt,
        workers.as_mut_slice(),
        threads,
        &|i: usize, worker: &mut Worker<N>|
            requires { (i < length scripts.now) × (worker.old.batches.items ≡ [])
                × ((s : _) → length (slice_index_or scripts.now i s).items ≤ vec_capacity worker.old.batches * most)
                × (1 ≤ most) × (most ≤ G.most) × (most ≤ 256) }
            ensures { (s : _) → IsRunInBatches N.limit G.most G.may_stop (Passes G.lets G.tells)
                (slice_index_or scripts.entry.now i s).items worker.old.session worker.new.session worker.new.batches.items worker.new.stopped }
        { worker.run(rt, manager, scripts[i].as_slice(), gate, most) },
    );
}
