ghost use Rattle.std.specs.Prelude.{◌≡◌, ◌≢◌, ◌⊎◌, ◌+◌, ◌<◌, ◌≤◌, [], length, take};
ghost use Rattle.std.specs.Prelude.{true, ◌↔◌, Some, None, IsTrue, IfSome, IfOk, IfErr, IsOk};
ghost use mathlib.Core.List.{IsPrefix};
ghost use Rattle.lrc_code.specs.declared.fault.Fault.TheVariants as fault;
ghost use Rattle.lrc_rules.specs.Histories.{first_world};
ghost use Rattle.lrc_book.specs.Books.{BookView, FaultFits};
ghost use Rattle.lrc_sessions.specs.Locked.{IsLocked, AreMadeBy};
ghost use Rattle.lrc_sessions.specs.Calls.{IsCalled, AreCalled, IsLeft, IsFullIn};

use crate::naming::Naming;
use crate::session::Session;
use lrc_board::{Batch, Keeper, Receipt};
use lrc_book::Command;
use lrc_code::Fault;
use std::marker::Model;
use std::sync::Wait;
use std::sync::ledger::{Book as Tally, Share};

/// The state that the manager's lock guards: the keeper of the book, the ledger that counts the calls, and the shares
/// that no session has. It is not `Drop`, because the keeper is not; `into_parts` ends it.
pub(crate) struct LockedState<N: Naming> {
    keeper: Keeper<N>,
    tally: Tally<N>,
    rest: Share<N>,
}

impl<N: Naming> Model for LockedState<N> {
    ghost use Rattle.std.specs.Prelude.{◌≡◌, ◌+◌};
    ghost use Rattle.lrc_book.specs.Books.{BookView};
    ghost use Rattle.lrc_sessions.specs.Locked.{IsLocked};

    ghost Value = { BookView };

    ghost view = { λ d. d.keeper };

    ghost invariant = { λ d. IsLocked N.topology N.limit d.tally.total d.keeper × (d.rest.parts + N.count ≡ 8) × (d.rest.amount ≡ 0) };
}

impl<N: Naming> LockedState<N> {
    /// Makes the state before the first call.
    pub(crate) fn new(keeper: Keeper<N>, tally: Tally<N>, rest: Share<N>) -> LockedState<N>
        requires book { (keeper.nodes ≡ N.topology) × (keeper.limit ≡ N.limit) × (keeper.history ≡ []) × (keeper.base ≡ first_world) × (keeper.before ≡ 0) }
        requires tally { tally.total ≡ 0 }
        requires rest { (rest.parts + N.count ≡ 8) × (rest.amount ≡ 0) }
        ensures { result ≡ keeper }
    {
        let _entries = keeper.book().history();
        LockedState {
            keeper,
            tally,
            rest,
        }
    }

    /// Makes one call of a session, as a batch of one.
    pub(crate) fn call<R: Wait>(
        &mut self,
        rt: &R,
        session: &mut Session<N>,
        command: Command,
    ) -> Result<Receipt, Fault>
        ensures called { IfOk result (λ r. IsCalled N.topology session.old command r session.new) }
        ensures place { IfOk result (λ r. (session.new.made ≤ r.place) × (r.place ≤ N.limit)) }
        ensures enough { self.old.ready ≡ true → length self.old.history < self.old.limit → IsOk result }
        ensures left { IfErr result (λ f. IsLeft N.topology N.limit session.old f session.new) }
    {
        let (batch, fault) = self.call_all(rt, session, &[command]);
        if let Some(fault) = fault {
            return Err(fault);
        }
        let history = self.keeper.book().history();
        let last = &history[history.len() - 1];
        Ok(Receipt {
            place: batch.first,
            reply: last.reply(),
        })
    }

    /// Makes calls of a session in order: makes each as one step of the placement object, publishes them together, and
    /// adds their number to the session's count. A fault ends the batch: the calls before it are made. The session has
    /// then seen the whole history, unless `OutOfMemory` came before the first call.
    pub(crate) fn call_all<R: Wait>(
        &mut self,
        rt: &R,
        session: &mut Session<N>,
        commands: &[Command],
    ) -> (Batch, Option<Fault>)
        requires few { length commands.now ≤ 256 }
        ensures first { result.0.first ≡ length self.old.history + 1 }
        ensures some { result.0.count ≤ length commands.now }
        ensures made { AreMadeBy self.old.history session.old.number (take result.0.count commands.now)
            self.new.history }
        ensures called { AreCalled N.topology session.old (take result.0.count commands.now) result.0.first
            session.new }
        ensures left { result.0.count ≡ 0 → result.1 ≡ Some fault.OutOfMemory → session.new ≡ session.old }
        ensures seen { (0 < result.0.count) ⊎ (result.1 ≢ Some fault.OutOfMemory)
            → session.new.seen ≡ self.new.history }
        ensures place { (session.new.made ≤ length session.new.seen) × (length session.new.seen ≤ N.limit) }
        ensures all { result.1 ≡ None → result.0.count ≡ length commands.now }
        ensures fault { IfSome result.1 (λ f. (result.0.count < length commands.now) × FaultFits self.new f
            × IsFullIn N.limit session.new.seen f) }
        ensures enough { self.old.ready ≡ true → length self.old.history < self.old.limit → 0 < length commands.now
            → 0 < result.0.count }
    {
        let LockedState {
            keeper,
            tally,
            rest: _,
        } = self;
        let Session {
            number,
            made,
            share,
            viewer,
        } = session;
        keeper.covers(viewer);
        let (batch, fault) = keeper.apply_all(rt, *number, commands);
        if is_unmade(&batch, fault) {
            return (batch, fault);
        }
        let _entries = keeper.book().history();
        keeper.advance(viewer);
        tally.add(share, batch.count);
        tally.audit(share);
        *made += batch.count;
        (batch, fault)
    }

    /// Moves the session to the end of the history.
    pub(crate) fn show(&mut self, session: &mut Session<N>)
        ensures same { self.new ≡ self.old }
        ensures session { (session.new.number ≡ session.old.number) × (session.new.made ≡ session.old.made) }
        ensures later { IsPrefix session.old.seen session.new.seen }
        ensures all { session.new.seen ≡ self.old.history }
    {
        self.keeper.show(&mut session.viewer);
    }

    /// Takes the state apart: the keeper, the ledger, and the shares that no session has.
    pub(crate) fn into_parts(self) -> (Keeper<N>, Tally<N>, Share<N>)
        ensures book { result.0 ≡ self }
        ensures locked { IsLocked N.topology N.limit result.1.total result.0 }
        ensures rest { (result.2.parts + N.count ≡ 8) × (result.2.amount ≡ 0) }
    {
        let LockedState {
            keeper,
            tally,
            rest,
        } = self;
        (keeper, tally, rest)
    }
}

/// Reports whether memory was refused before the first call of a batch, so that nothing changed.
fn is_unmade(batch: &Batch, ended: Option<Fault>) -> bool
    ensures { IsTrue result ↔ ((batch.now.count ≡ 0) × (ended ≡ Some fault.OutOfMemory)) }
{
    batch.count == 0 && matches!(ended, Some(Fault::OutOfMemory))
}
