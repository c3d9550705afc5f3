ghost use Rattle.std.specs.Prelude.{◌≡◌, ◌≤◌, [], length, map, vec_capacity};

use crate::looks::task::{Done, time_calls, time_looks};
use lrc_code::StripeNo;
use lrc_sessions::{Manager, Naming, Session};
use std::rt::Clock;
use std::sync::Wait;
use std::time::CpuClock;

/// The plan of a run: the first session makes the calls, and each other makes the looks.
#[derive(Clone, Copy)]
pub(crate) struct Plan {
    pub(crate) stripe: StripeNo,
    pub(crate) looks: u64,
    pub(crate) calls: u64,
}

/// A session with its task. `apart` keeps the sessions of other workers off its cache lines.
#[derive(Drop)]
pub(crate) struct Worker<N: Naming> {
    pub(crate) session: Session<N>,
    done: Done,
    apart: [u64; 16],
}

impl<N: Naming> Worker<N> {
    /// Runs the part of the plan of the session at `index`.
    pub(crate) fn run<R: Wait + Clock + CpuClock>(
        &mut self,
        rt: &R,
        manager: &Manager<N>,
        index: usize,
        plan: Plan,
    )
        ensures { self.new.session.number ≡ self.old.session.number }
    {
        let Worker {
            session,
            done,
            apart: _,
        } = self;
        *done = if index == 0 {
            time_calls(rt, manager, session, plan.stripe, plan.calls)
        } else {
            time_looks(rt, session, plan.stripe, plan.looks)
        };
    }
}

/// Makes a worker of each session, in order.
pub(crate) fn assign_sessions<N: Naming>(sessions: Vec<Session<N>>, workers: &mut Vec<Worker<N>>)
    requires { (workers.old.items ≡ []) × (length sessions.items ≤ vec_capacity workers.old) }
    ensures { map (λ w. w.session) workers.new.items ≡ sessions.items }
{
    for session in sessions {
        workers.push_reserved(Worker {
            session,
            done: Done {
                count: 0,
                whole: 0,
                span: None,
            },
            apart: [0; 16],
        });
    }
}

/// Collects the sessions of the workers and what each did, in order.
pub(crate) fn collect_results<N: Naming>(
    workers: Vec<Worker<N>>,
    sessions: &mut Vec<Session<N>>,
    done: &mut Vec<Done>,
)
    requires sessions { (sessions.old.items ≡ []) × (length workers.items ≤ vec_capacity sessions.old) }
    requires done { (done.old.items ≡ []) × (length workers.items ≤ vec_capacity done.old) }
    ensures { sessions.new.items ≡ map (λ w. w.session) workers.items }
{
    for worker in workers {
        let Worker {
            session,
            done: one,
            apart: _,
        } = worker;
        sessions.push_reserved(session);
        done.push_reserved(one);
    }
}
