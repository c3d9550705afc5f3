//! Looks and calls at the same time: one session of a manager makes calls while others look, each on a thread of its own.
//! Counts go to standard output, and times to standard error.

ghost use Rattle.std.specs.Prelude.{◌≤◌, IfOk};

mod concurrent;
mod moment;
mod run_buffers;
mod task;
mod worker;

use crate::stop::Stop;
use crate::store::new_book;
use concurrent::{Ran, run_concurrently};
use lrc_code::StripeNo;
use lrc_samples::twenty_nodes;
use lrc_sessions::Parts;
use moment::Moment;
use std::alloc::Global;
use std::marker::Brand;
use std::rt::Clock;
use std::sync::Wait;
use std::thread::Threads;
use std::time::CpuClock;
use task::{Done, time_book};
use worker::Plan;

/// The most calls of one book.
const MOST_CALLS: u64 = 1_000_000;

/// The most sessions that look while another makes calls.
const MOST_READERS: u8 = 7;

/// What each session of a run is printed as, with what it does.
const NAMES: [&str; 8] = [
    "session 1 calls",
    "session 2 looks",
    "session 3 looks",
    "session 4 looks",
    "session 5 looks",
    "session 6 looks",
    "session 7 looks",
    "session 8 looks",
];

/// How many sessions look, and what each session does.
#[derive(Clone, Copy)]
pub(crate) struct Request {
    readers: u8,
    plan: Plan,
}

/// Reads the numbers of readers, of the looks of each, and of the calls of the other session.
pub(crate) fn parse_request(readers: &str, looks: &str, calls: &str) -> Result<Request, Stop>
    ensures { IfOk result (λ r. r.readers ≤ 7) }
{
    let (Ok(readers), Ok(looks), Ok(calls)) = (readers.parse(), looks.parse(), calls.parse()) else {
        return Err(Stop::Usage);
    };
    if readers > MOST_READERS || calls > MOST_CALLS {
        return Err(Stop::Usage);
    }
    let plan = Plan {
        stripe: StripeNo { value: 1 },
        looks,
        calls,
    };
    Ok(Request { readers, plan })
}

/// Makes the calls and looks of the request on these threads, and prints the results.
pub(crate) fn measure<T: Threads + Wait + Clock + CpuClock + Sync>(
    rt: &HostRuntime,
    threads: &T,
    request: Request,
) -> Result<(), Stop>
    requires { request.readers ≤ 7 }
{
    let start = Moment::now(rt).ok_or(Stop::NoClock)?;
    let alone = run_alone(rt, rt.alloc(), request.plan)?;
    report(rt, "book calls", start, &alone)?;
    let ran = run_all(threads, rt.alloc(), request.readers, request.plan)?;
    report_all(rt, start, &ran)
}

/// Makes the calls on a book that is not published.
fn run_alone<R: Clock + CpuClock>(rt: &R, alloc: Global, plan: Plan) -> Result<Done, Stop> {
    let mut book = new_book(alloc)?;
    let done = time_book(rt, &mut book, plan.stripe, plan.calls);
    drop(book);
    Ok(done)
}

/// Makes the calls by one session while the readers look.
fn run_all<R: Threads + Wait + Clock + CpuClock + Sync>(
    rt: &R,
    alloc: Global,
    readers: u8,
    plan: Plan,
) -> Result<Ran, Stop>
    requires { readers ≤ 7 }
{
    let topology = twenty_nodes(alloc)?;
    let sessions = readers + 1;
    let parts = Parts::new(alloc, topology, sessions)?;
    run_concurrently::<Brand, _>(rt, alloc, parts, sessions, plan)
}

/// Prints what each session did, and the number of entries of the history.
fn report_all(rt: &HostRuntime, start: Moment, ran: &Ran) -> Result<(), Stop> {
    for (name, done) in NAMES.iter().zip(ran.done.iter()) {
        report(rt, name, start, done)?;
    }
    println!(rt; "entries {}", ran.entries)?;
    Ok(())
}

/// Prints how much one thread did, and when, in nanoseconds from the start.
fn report(rt: &HostRuntime, name: &str, start: Moment, done: &Done) -> Result<(), Stop> {
    println!(rt; "{name} {}", done.count)?;
    let span = done.span.ok_or(Stop::NoClock)?;
    eprintln!(rt;
        "{name} begun {} ended {} processor {} whole {}",
        span.begun(start),
        span.ended(start),
        span.processor(),
        done.whole
    )?;
    Ok(())
}
