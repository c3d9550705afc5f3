ghost use Rattle.std.specs.Prelude.{◌≡◌, ℕ, ◌+◌, ◌*◌, ◌^◌, ◌<◌, ◌≤◌, [], length, take, vec_capacity};
ghost use Rattle.lrc_sessions.specs.Calls.{AreCalled};
ghost use Rattle.lrc_sessions.specs.Receipts.{with_batch};
ghost use Rattle.lrc_sessions.specs.Runs.{StopFits, StopIsSeen, Passes, IsRunInBatches};

use crate::gate::Gate;
use crate::manager::Manager;
use crate::naming::Naming;
use crate::session::Session;
use crate::track::Stop;
use lrc_board::Batch;
use lrc_book::Command;
use lrc_code::SessionNo;
use std::sync::Wait;

/// A session that runs a script, with the batches so far.
#[derive(Drop)]
pub(crate) struct Worker<N: Naming> {
    pub(crate) session: Session<N>,
    pub(crate) batches: Vec<Batch>,
    pub(crate) stopped: Option<Stop>,
}

impl<N: Naming> Worker<N> {
    /// Makes the calls of a script, at most `most` in each batch, until a fault or the gate stops it.
    pub(crate) fn run<R: Wait, G: Gate>(
        &mut self,
        rt: &R,
        manager: &Manager<N>,
        script: &[Command],
        gate: &G,
        most: usize,
    )
        requires empty { self.old.batches.items ≡ [] }
        requires room { length script.now ≤ vec_capacity self.old.batches * most }
        requires most { (1 ≤ most) × (most ≤ G.most) × (most ≤ 256) }
        ensures { IsRunInBatches N.limit G.most G.may_stop (Passes G.lets G.tells) script.now
            self.old.session self.new.session self.new.batches.items self.new.stopped }
    {
        let Worker {
            session,
            batches,
            stopped,
        } = self;
        *stopped = make_calls(rt, manager, session, batches, script, gate, most);
    }
}

/// Makes the calls of a script, and returns why it stopped before its end.
fn make_calls<N: Naming, R: Wait, G: Gate>(
    rt: &R,
    manager: &Manager<N>,
    session: &mut Session<N>,
    batches: &mut Vec<Batch>,
    script: &[Command],
    gate: &G,
    most: usize,
) -> Option<Stop>
    requires empty { batches.old.items ≡ [] }
    requires room { length script.now ≤ vec_capacity batches.old * most }
    requires most { (1 ≤ most) × (most ≤ G.most) × (most ≤ 256) }
    ensures { IsRunInBatches N.limit G.most G.may_stop (Passes G.lets G.tells) script.now
        session.old session.new batches.new.items result }
{
    let mut done = 0;
    for calls in script.chunks(most) {
        let (batch, stopped) = make_batch(rt, manager, session, calls, gate, done);
        keep(batches, batch);
        if stopped.is_some() {
            return stopped;
        }
        done += batch.count;
    }
    None
}

/// Adds a batch, unless it has no call.
fn keep(batches: &mut Vec<Batch>, batch: Batch)
    requires { length batches.old.items < vec_capacity batches.old }
    ensures items { batches.new.items ≡ with_batch batches.old.items batch }
    ensures capacity { vec_capacity batches.new ≡ vec_capacity batches.old }
{
    if batch.count > 0 {
        batches.push_reserved(batch);
    }
}

/// Makes calls of a session in one batch, after the first `done` calls of its script. It takes no lock if the gate stops
/// the first. Returns the batch, and why the script stopped.
fn make_batch<N: Naming, R: Wait, G: Gate>(
    rt: &R,
    manager: &Manager<N>,
    session: &mut Session<N>,
    calls: &[Command],
    gate: &G,
    done: u64,
) -> (Batch, Option<Stop>)
    requires few { length calls.now ≤ 256 }
    requires numbers { done + length calls.now < 2 ^ 64 }
    ensures made { AreCalled N.topology session.old (take result.0.count calls.now) result.0.first session.new }
    ensures some { result.0.count ≤ length calls.now }
    ensures stopped { StopFits G.may_stop calls.now result.0.count result.1 }
    ensures seen { StopIsSeen N.limit session.new.seen result.1 }
    ensures passed { (i : ℕ) → i < result.0.count → Passes G.lets G.tells session.old.number (done + i + 1) }
{
    let let_through = ask(gate, session.number(), calls.len(), done);
    if let_through == 0 && !calls.is_empty() {
        return (no_calls(session), Some(Stop::Gate));
    }
    let (batch, fault) = manager.call_all(rt, session, &calls[..let_through]);
    tell(gate, session.number(), batch.count, done);
    let stopped = match fault {
        Some(fault) => Some(Stop::Fault(fault)),
        None if let_through < calls.len() => Some(Stop::Gate),
        None => None,
    };
    (batch, stopped)
}

/// Returns a batch without calls, for which no lock was taken.
fn no_calls<N: Naming>(session: &Session<N>) -> Batch
    ensures made { AreCalled N.topology session.now [] result.first session.now }
    ensures none { result.count ≡ 0 }
{
    session.front();
    Batch { first: 0, count: 0 }
}

/// Asks a gate for `count` calls of a session after the first `done`, and returns how many it let through before it
/// stopped one.
fn ask<G: Gate>(gate: &G, session: SessionNo, count: usize, done: u64) -> usize
    requires { done + count < 2 ^ 64 }
    ensures some { result ≤ count }
    ensures through { (i : ℕ) → i < result → G.lets session.value (done + i + 1) }
    ensures stopped { result < count → G.may_stop }
{
    for i in 0..count {
        if gate.before(session, done + i as u64 + 1).is_err() {
            return i;
        }
    }
    count
}

/// Tells a gate of `count` calls of a session after the first `done`.
fn tell<G: Gate>(gate: &G, session: SessionNo, count: u64, done: u64)
    requires { done + count < 2 ^ 64 }
    ensures { (i : ℕ) → i < count → G.tells session.value (done + i + 1) }
{
    for i in 0..count {
        gate.after(session, done + i + 1);
    }
}
