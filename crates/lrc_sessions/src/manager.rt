ghost use Rattle.std.specs.Prelude.{◌≡◌, ◌≢◌, ◌+◌, ◌<◌, ◌≤◌, [], length, replicate};
ghost use Rattle.std.specs.Prelude.{take, vec_capacity, Some, None, IfSome, IfOk, IfErr, OnOk};
ghost use mathlib.Core.List.{IsPrefix};
ghost use Rattle.lrc_code.specs.declared.fault.Fault.TheVariants as fault;
ghost use Rattle.lrc_rules.specs.Histories.{IsLegal};
ghost use Rattle.lrc_board.specs.declared.open_error.OpenError.TheVariants as error;
ghost use Rattle.lrc_sessions.specs.Views.{ManagerView, SessionView, fresh};
ghost use Rattle.lrc_sessions.specs.Calls.{IsCalled, AreCalled, IsLeft, IsFullIn};

use crate::locked_state::LockedState;
use crate::naming::Naming;
use crate::parts::Parts;
use crate::session::Session;
use lrc_board::{Batch, Keeper, OpenError, Receipt, Viewer};
use lrc_book::Command;
use lrc_code::{Fault, SessionNo};
use std::alloc::{AllocError, Global};
use std::marker::Model;
use std::sync::ledger::Share;
use std::sync::{Mutex, MutexGuard, Wait};

/// A published book guarded by one lock, for 1 to 8 sessions. Only `finish` ends it.
pub struct Manager<N: Naming> {
    pub(crate) state: Mutex<LockedState<N>>,
    pub(crate) count: u8,
    pub(crate) made: Vec<(SessionNo, u64)>,
}

impl<N: Naming> Model for Manager<N> {
    ghost use Rattle.std.specs.Prelude.{◌≡◌, ◌≤◌, [], vec_capacity};
    ghost use Rattle.lrc_sessions.specs.Views.{ManagerView};

    ghost Value = { ManagerView };

    ghost view = { λ m. record { count = m.count } };

    ghost invariant = { λ m. (m.count ≡ N.count) × (N.parts ≡ 8) × (1 ≤ m.count)
        × (m.count ≤ vec_capacity m.made) × (m.made.items ≡ []) };
}

impl<N: Naming> Manager<N> {
    /// Opens a manager with a new book, and its sessions, which have the numbers from 1 to the count of the parts, in
    /// order. It takes no lock. It takes the runtime for `Keeper::open`, which has no viewer to wait for.
    ///
    /// # Errors
    ///
    /// `OpenError::OutOfMemory`, or `OpenError::NoReader` if there is no reader for a session.
    pub fn open<R: Wait>(
        alloc: Global,
        rt: &R,
        parts: Parts,
    ) -> Result<(Manager<N>, Vec<Session<N>>), OpenError>
        // N names these parts
        requires topology { parts.topology ≡ N.topology }
        requires limit { parts.limit ≡ N.limit }
        requires count { parts.count ≡ N.count }
        requires name { parts.name ≡ N.name }
        requires shares { parts.shares ≡ N.parts }
        requires log { (parts.log ≡ N.log) × (parts.start ≡ N.start) }
        ensures ok { IfOk result (λ r. (r.0.count ≡ parts.count) × (r.1.items ≡ fresh parts.count)) }
        ensures err { IfErr result (λ e. e ≢ error.BadCount) }
    {
        let (made, sessions) = room_for(alloc, parts.count)?;
        open_in(alloc, rt, parts, made, sessions)
    }

    /// Returns the number of sessions that the manager was opened with.
    pub(crate) fn count(&self) -> u8
        ensures { result ≡ self.now.count }
    {
        self.count
    }

    /// Makes one call of a session under the lock, and publishes it. It waits for the lock, and for looks that began
    /// before the last call. A `Fault` changes nothing, except that after `HistoryFull` the session has seen the whole
    /// history.
    ///
    /// # Errors
    ///
    /// `Fault::HistoryFull` if the history has as many entries as its limit; otherwise only `Fault::OutOfMemory`.
    pub fn call<R: Wait>(
        &self,
        rt: &R,
        session: &mut Session<N>,
        command: Command,
    ) -> Result<Receipt, Fault>
        ensures ok { IfOk result (λ r. IsCalled N.topology session.old command r session.new) }
        ensures place { IfOk result (λ r. (session.new.made ≤ r.place) × (r.place ≤ N.limit)) }
        ensures err { IfErr result (λ f. IsLeft N.topology N.limit session.old f session.new) }
    {
        let mut state = self.state.lock(rt);
        let called = state.call(rt, session, command);
        MutexGuard::unlock(state);
        called
    }

    /// Makes up to 256 calls of a session in order, in one batch: it takes the lock once, and publishes the calls
    /// together. It waits for the lock, and for looks that began before the last batch. Returns the batch of the calls
    /// that were made, and the fault that ended it. A `Fault` ends the batch before the call that returned it: the
    /// calls before it are made, and it and those after it are not. The session has then seen the whole history, unless
    /// `OutOfMemory` came before the first call, which changes nothing. The history has the replies.
    ///
    /// # Errors
    ///
    /// `Fault::HistoryFull` if the history has as many entries as its limit and commands are left; otherwise only
    /// `Fault::OutOfMemory`.
    pub fn call_all<R: Wait>(
        &self,
        rt: &R,
        session: &mut Session<N>,
        commands: &[Command],
    ) -> (Batch, Option<Fault>)
        requires few { length commands.now ≤ 256 }
        // the calls that were made
        ensures some { result.0.count ≤ length commands.now }
        ensures made { AreCalled N.topology session.old (take result.0.count commands.now) result.0.first session.new }
        ensures place { (session.new.made ≤ length session.new.seen) × (length session.new.seen ≤ N.limit) }
        // without a fault they are all, and the last entries that the session has seen
        ensures all { result.1 ≡ None → (result.0.count ≡ length commands.now)
            × (result.0.first + result.0.count ≡ length session.new.seen + 1) }
        ensures fault { IfSome result.1
            (λ f. (result.0.count < length commands.now) × IsFullIn N.limit session.new.seen f) }
        ensures left { result.0.count ≡ 0 → result.1 ≡ Some fault.OutOfMemory → session.new ≡ session.old }
    {
        let mut state = self.state.lock(rt);
        let called = state.call_all(rt, session, commands);
        MutexGuard::unlock(state);
        called
    }

    /// Moves both sessions to the end of the history. It waits for the lock.
    pub fn meet<R: Wait>(&self, rt: &R, one: &mut Session<N>, other: &mut Session<N>)
        ensures one { (one.new.number ≡ one.old.number) × (one.new.made ≡ one.old.made) }
        ensures other { (other.new.number ≡ other.old.number) × (other.new.made ≡ other.old.made) }
        ensures later { IsPrefix one.old.seen one.new.seen × IsPrefix other.old.seen other.new.seen }
        ensures both { one.new.seen ≡ other.new.seen }
        ensures legal { IsLegal N.topology one.new.seen }
    {
        let mut state = self.state.lock(rt);
        state.show(one);
        state.show(other);
        MutexGuard::unlock(state);
        one.front();
    }
}

/// Allocates room for `count` sessions, and for their numbers of calls at the end.
fn room_for<N: Naming>(
    alloc: Global,
    count: u8,
) -> Result<(Vec<(SessionNo, u64)>, Vec<Session<N>>), AllocError>
    ensures made { IfOk result (λ r. (r.0.items ≡ []) × (count ≤ vec_capacity r.0)) }
    ensures sessions { IfOk result (λ r. (r.1.items ≡ []) × (count ≤ vec_capacity r.1)) }
{
    let made = Vec::with_capacity(alloc, count as usize)?;
    let sessions = Vec::with_capacity(alloc, count as usize)?;
    Ok((made, sessions))
}

/// Opens a manager with its sessions in room that was allocated before.
fn open_in<N: Naming, R: Wait>(
    alloc: Global,
    rt: &R,
    parts: Parts,
    made: Vec<(SessionNo, u64)>,
    sessions: Vec<Session<N>>,
) -> Result<(Manager<N>, Vec<Session<N>>), OpenError>
    requires topology { parts.topology ≡ N.topology }
    requires limit { parts.limit ≡ N.limit }
    requires count { parts.count ≡ N.count }
    requires name { parts.name ≡ N.name }
    requires shares { parts.shares ≡ N.parts }
    requires log { (parts.log ≡ N.log) × (parts.start ≡ N.start) }
    requires made { (made.items ≡ []) × (parts.count ≤ vec_capacity made) }
    requires sessions { (sessions.items ≡ []) × (parts.count ≤ vec_capacity sessions) }
    ensures ok { IfOk result (λ r. (r.0.count ≡ parts.count) × (r.1.items ≡ fresh parts.count)) }
    ensures err { IfErr result (λ e. e ≢ error.BadCount) }
{
    let Parts {
        book,
        log,
        tally,
        count,
    } = parts;
    let (keeper, viewers) = Keeper::open(alloc, rt, book, log, count)?;
    let (tally, mut rest) = tally.open::<N>();
    let sessions = split(&mut rest, viewers, count, sessions);
    let manager = Manager {
        state: Mutex::new(LockedState::new(keeper, tally, rest)),
        count,
        made,
    };
    Ok((manager, sessions))
}

/// Makes the sessions 1 to `count`, each with one part of the share and a viewer of its own.
fn split<N: Naming>(
    rest: &mut Share<N>,
    mut viewers: Vec<Viewer<N>>,
    count: u8,
    mut sessions: Vec<Session<N>>,
) -> Vec<Session<N>>
    requires parts { count ≤ rest.old.parts }
    requires few { count ≤ 8 }
    requires limit { N.limit ≤ 1000000 }
    requires amount { rest.old.amount ≡ 0 }
    requires viewers { viewers.items ≡ replicate count [] }
    requires room { (count ≤ vec_capacity sessions) × (sessions.items ≡ []) }
    ensures sessions { result.items ≡ fresh count }
    ensures rest { (rest.new.parts + count ≡ rest.old.parts) × (rest.new.amount ≡ 0) }
{
    for before in 0..count {
        let share = rest.split_off(1, 0);
        let number = SessionNo::new(before + 1).unwrap();
        let viewer = viewers.pop().unwrap();
        sessions.push_reserved(Session::new(number, share, viewer));
    }
    sessions
}
