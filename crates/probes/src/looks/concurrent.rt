//! A run in which one session makes calls while the others look.

ghost use Rattle.std.specs.Prelude.{◌≡◌, ℕ, ◌<◌, ◌≤◌, [], length, vec_capacity, slice_index_or};
ghost use Rattle.lrc_sessions.specs.Views.{fresh};

use crate::looks::run_buffers::RunBuffers;
use crate::looks::task::Done;
use crate::looks::worker::{Plan, Worker, assign_sessions, collect_results};
use crate::stop::Stop;
use crate::store::finish;
use lrc_sessions::{Manager, Naming, Parts, Session};
use std::alloc::Global;
use std::rt::Clock;
use std::sync::Wait;
use std::thread;
use std::thread::Threads;
use std::time::CpuClock;

/// The result of a run: the number of entries of the history, and what each session did.
#[derive(Drop)]
pub(crate) struct Ran {
    pub(crate) entries: usize,
    pub(crate) done: Vec<Done>,
}

/// Opens a manager, runs the plan by its sessions, and ends the manager.
pub(crate) fn run_concurrently<
    N: Naming + Send + Sync,
    R: Threads + Wait + Clock + CpuClock + Sync,
>(rt: &R, alloc: Global, parts: Parts, count: u8, plan: Plan) -> Result<Ran, Stop>
    requires topology { parts.topology ≡ N.topology }
    requires limit { parts.limit ≡ N.limit }
    requires count { parts.count ≡ N.count }
    requires name { parts.name ≡ N.name }
    requires shares { parts.shares ≡ N.parts }
    requires log { (parts.log ≡ N.log) × (parts.start ≡ N.start) }
    requires same { count ≡ parts.count }
{
    let (manager, sessions) = Manager::<N>::open(alloc, rt, parts)?;
    match RunBuffers::new(alloc, count) {
        Ok(buffers) => Ok(run_in(rt, manager, sessions, buffers, plan)),
        Err(_) => {
            drop(finish(rt, manager, sessions));
            Err(Stop::Failed)
        }
    }
}

/// Runs the plan by the sessions that a manager was opened with, in memory that was allocated before, and ends the manager.
fn run_in<N: Naming + Send + Sync, R: Threads + Wait + Clock + CpuClock + Sync>(
    rt: &R,
    manager: Manager<N>,
    opened: Vec<Session<N>>,
    buffers: RunBuffers<N>,
    plan: Plan,
) -> Ran
    requires opened { opened.items ≡ fresh manager.count }
    requires workers { (buffers.workers.items ≡ []) × (manager.count ≤ vec_capacity buffers.workers) }
    requires sessions { (buffers.sessions.items ≡ []) × (manager.count ≤ vec_capacity buffers.sessions) }
    requires done { (buffers.done.items ≡ []) × (manager.count ≤ vec_capacity buffers.done) }
{
    let RunBuffers {
        mut workers,
        mut sessions,
        mut done,
    } = buffers;
    assign_sessions(opened, &mut workers);
    run_workers(rt, &manager, &mut workers, plan);
    collect_results(workers, &mut sessions, &mut done);
    let closing = finish(rt, manager, sessions);
    let entries = closing.book.history().len();
    drop(closing);
    Ran { entries, done }
}

/// Runs the plan, each worker on a thread of its own if the system starts one.
fn run_workers<N: Naming + Send + Sync, R: Threads + Wait + Clock + CpuClock + Sync>(
    rt: &R,
    manager: &Manager<N>,
    workers: &mut Vec<Worker<N>>,
    plan: Plan,
)
    ensures same { length workers.new.items ≡ length workers.old.items }
    ensures numbers { (i : ℕ) (w : _) → i < length workers.old.items
        → (slice_index_or workers.new.items i w).session.number ≡ (slice_index_or workers.old.items i w).session.number }
{
    if workers.is_empty() {
        return;
    }
    let threads = workers.len();
    thread::for_each_mut(
        rt,
        workers.as_mut_slice(),
        threads,
        &|i: usize, worker: &mut Worker<N>|
            ensures { worker.new.session.number ≡ worker.old.session.number }
        { worker.run(rt, manager, i, plan) },
    );
}
