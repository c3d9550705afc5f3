//! The tasks that are measured: calls and looks.

ghost use Rattle.std.specs.Prelude.{◌≡◌};

use crate::looks::moment::{Moment, Span};
use lrc_book::{Book, Command, Level, Reply};
use lrc_code::{SessionNo, StripeNo};
use lrc_sessions::{Manager, Naming, Session};
use std::rt::Clock;
use std::sync::Wait;
use std::time::CpuClock;

/// How much of a task was done, and when.
#[derive(Clone, Copy)]
pub(crate) struct Done {
    /// The calls that placed or dropped the stripe, or the looks that had a view.
    pub(crate) count: u64,
    /// The looks that saw the stripe whole.
    pub(crate) whole: u64,
    /// `None` if a clock can't be read.
    pub(crate) span: Option<Span>,
}

impl Done {
    /// Returns what was done of a task that began at a moment and ends now.
    fn now<R: Clock + CpuClock>(rt: &R, begun: Option<Moment>, count: u64, whole: u64) -> Done {
        let span = Span::from(begun, Moment::now(rt));
        Done { count, whole, span }
    }
}

/// Returns call `n` of a task, which places and drops a stripe in turn.
fn command(stripe: StripeNo, n: u64) -> Command {
    if n % 2 == 0 {
        Command::Place(stripe)
    } else {
        Command::Drop(stripe)
    }
}

/// Returns whether a call placed or dropped a stripe.
fn is_done(reply: &Reply) -> bool {
    matches!(reply, Reply::Placed(_) | Reply::Dropped)
}

/// Makes up to `calls` calls of a book, and returns how many were made before one failed.
fn call_book(book: &mut Book, stripe: StripeNo, calls: u64) -> u64 {
    let session = SessionNo { value: 1 };
    for n in 0..calls {
        match book.call(session, command(stripe, n)) {
            Ok(reply) if is_done(&reply) => {}
            _ => return n,
        }
    }
    calls
}

/// Makes up to `calls` calls of a manager, and returns how many were made before one failed.
fn call<N: Naming, R: Wait>(
    rt: &R,
    manager: &Manager<N>,
    session: &mut Session<N>,
    stripe: StripeNo,
    calls: u64,
) -> u64
    ensures { session.new.number ≡ session.old.number }
{
    for n in 0..calls {
        match manager.call(rt, session, command(stripe, n)) {
            Ok(receipt) if is_done(&receipt.reply) => {}
            _ => return n,
        }
    }
    calls
}

/// Makes up to `looks` looks at a stripe's level. Returns how many were made before one failed, and how many saw it whole.
fn look<N: Naming>(session: &mut Session<N>, stripe: StripeNo, looks: u64) -> (u64, u64)
    ensures { session.new.number ≡ session.old.number }
{
    let mut whole = 0u64;
    for n in 0..looks {
        match session.level_of(stripe) {
            Ok(seen) => {
                if seen.value == Some(Level::Whole) {
                    whole = whole.saturating_add(1);
                }
            }
            Err(_) => return (n, whole),
        }
    }
    (looks, whole)
}

/// Makes the calls of a book that is not published, and measures them.
pub(crate) fn time_book<R: Clock + CpuClock>(
    rt: &R,
    book: &mut Book,
    stripe: StripeNo,
    calls: u64,
) -> Done {
    let begun = Moment::now(rt);
    let count = call_book(book, stripe, calls);
    Done::now(rt, begun, count, 0)
}

/// Makes the calls of a session, and measures them.
pub(crate) fn time_calls<N: Naming, R: Wait + Clock + CpuClock>(
    rt: &R,
    manager: &Manager<N>,
    session: &mut Session<N>,
    stripe: StripeNo,
    calls: u64,
) -> Done
    ensures { session.new.number ≡ session.old.number }
{
    let begun = Moment::now(rt);
    let count = call(rt, manager, session, stripe, calls);
    Done::now(rt, begun, count, 0)
}

/// Makes the looks of a session, and measures them.
pub(crate) fn time_looks<N: Naming, R: Clock + CpuClock>(
    rt: &R,
    session: &mut Session<N>,
    stripe: StripeNo,
    looks: u64,
) -> Done
    ensures { session.new.number ≡ session.old.number }
{
    let begun = Moment::now(rt);
    let (count, whole) = look(session, stripe, looks);
    Done::now(rt, begun, count, whole)
}
