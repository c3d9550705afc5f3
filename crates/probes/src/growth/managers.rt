//! Calls of a manager and its two sessions.

ghost use Rattle.std.specs.Prelude.{◌≡◌};

use crate::growth::books::look as look_at_book;
use crate::growth::trial::{Call, Host, Looked, NODE, ONE, Risk, Trial, begin, end};
use crate::stop::Stop;
use crate::store::finish;
use lrc_code::Fault;
use lrc_samples::twenty_nodes;
use lrc_sessions::{Closing, LookError, Manager, Naming, OpenError, Parts, Session};
use std::marker::Brand;

/// Opens a manager of two sessions, and returns whether an allocation failed.
pub(crate) fn open_once(rt: &impl Host) -> Result<bool, Stop> {
    let parts = Parts::new(rt.alloc(), twenty_nodes(rt.alloc())?, 2)?;
    open_of::<Brand, _>(rt, parts)
}

fn open_of<N: Naming, R: Host>(rt: &R, parts: Parts) -> Result<bool, Stop>
    requires view { (parts.topology ≡ N.topology) × (parts.limit ≡ N.limit) × (parts.log ≡ N.log) × (parts.start ≡ N.start) }
    requires tally { (parts.count ≡ N.count) × (parts.name ≡ N.name) × (parts.shares ≡ N.parts) }
{
    begin(rt);
    match Manager::<N>::open(rt.alloc(), rt, parts) {
        Ok((manager, sessions)) => {
            drop(finish(rt, manager, sessions));
            end(rt, &Ok::<(), OpenError>(()))
        }
        Err(error) => end(rt, &Err::<(), OpenError>(error)),
    }
}

/// Prints how a manager ended, all that its book reports, and the number of calls of each session.
pub(crate) fn tell_end(rt: &impl Host, closing: &Closing) -> Result<(), Stop> {
    end(rt, &Ok::<(), Fault>(()))?;
    look_at_book(rt, &closing.book)?;
    println!(rt; "made {:?}", closing.made.as_slice())?;
    Ok(())
}

/// Tries a call of a new manager, after the commands of its first session.
pub(crate) fn try_call<R: Host>(rt: &R, call: Call, text: &str) -> Result<(), Stop> {
    let trial = Trial::read(rt.alloc(), call, text)?;
    let parts = Parts::new(rt.alloc(), twenty_nodes(rt.alloc())?, 2)?;
    try_of::<Brand, _>(rt, parts, &trial)
}

fn try_of<N: Naming, R: Host>(rt: &R, parts: Parts, trial: &Trial) -> Result<(), Stop>
    requires view { (parts.topology ≡ N.topology) × (parts.limit ≡ N.limit) × (parts.log ≡ N.log) × (parts.start ≡ N.start) }
    requires tally { (parts.count ≡ N.count) × (parts.name ≡ N.name) × (parts.shares ≡ N.parts) }
    requires two { parts.count ≡ 2 }
{
    let (manager, mut sessions) = Manager::<N>::open(rt.alloc(), rt, parts)?;
    let mut second = sessions.remove(1);
    let mut first = sessions.remove(0);
    let told = try_on(rt, &manager, &mut first, &mut second, trial);
    sessions.push_reserved(first);
    sessions.push_reserved(second);
    begin(rt);
    let closing = finish(rt, manager, sessions);
    let ended = tell_end(rt, &closing);
    drop(closing);
    told.and(ended)
}

fn try_on<N: Naming, R: Host>(
    rt: &R,
    manager: &Manager<N>,
    first: &mut Session<N>,
    second: &mut Session<N>,
    trial: &Trial,
) -> Result<(), Stop>
    ensures first { first.new.number ≡ first.old.number }
    ensures second { second.new.number ≡ second.old.number }
{
    for command in trial.before.as_slice() {
        manager.call(rt, first, *command)?;
    }
    look(rt, first, second)?;
    let is_end = matches!(trial.call, Call::Finish);
    if !is_end && try_once(rt, manager, first, second, trial)? {
        try_once(rt, manager, first, second, trial)?;
    }
    Ok(())
}

/// Prints how much both sessions have seen, and what the first one sees.
fn look<N: Naming>(rt: &impl Host, first: &mut Session<N>, second: &Session<N>) -> Result<(), Stop>
    ensures { first.new.number ≡ first.old.number }
{
    println!(rt; "fronts {} {}", first.front(), second.front())?;
    println!(rt; "sees {:?} {:?}", see(first), risk(rt, first))?;
    Ok(())
}

/// Makes the call, and returns whether an allocation failed. The first session makes a command, and the second looks.
fn try_once<N: Naming, R: Host>(
    rt: &R,
    manager: &Manager<N>,
    first: &mut Session<N>,
    second: &mut Session<N>,
    trial: &Trial,
) -> Result<bool, Stop>
    ensures first { first.new.number ≡ first.old.number }
    ensures second { second.new.number ≡ second.old.number }
{
    begin(rt);
    let is_refused = match trial.call {
        Call::Command => end(rt, &manager.call(rt, first, trial.last))?,
        Call::Risk => end(rt, &risk(rt, second))?,
        Call::Looks => end(rt, &see(second))?,
        _ => {
            manager.meet(rt, first, second);
            end(rt, &Ok::<(), Fault>(()))?
        }
    };
    look(rt, first, second)?;
    Ok(is_refused)
}

fn risk<N: Naming>(rt: &impl Host, session: &mut Session<N>) -> Result<Risk, LookError>
    ensures { session.new.number ≡ session.old.number }
{
    let seen = session.risk(rt.alloc())?;
    Ok((seen.value, seen.front))
}

fn see<N: Naming>(session: &mut Session<N>) -> Result<Looked, LookError>
    ensures { session.new.number ≡ session.old.number }
{
    let level = session.level_of(ONE)?;
    let load = session.load_of(NODE)?;
    Ok((level.value, load.value))
}
