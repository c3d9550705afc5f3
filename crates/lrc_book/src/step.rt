//! A step of the book. It is decided over the store, then room is made for it, and then it is committed, which can't fail.

ghost use Rattle.std.specs.Prelude.{◌≡◌, ◌<◌, ◌+◌, ◌++◌, ◌∷◌, [], ℕ, List, true, IfOk, IfErr, OnOk, IsOk, length, vec_len, vec_capacity};
ghost use Rattle.lrc_code.specs.declared.fault.Fault.TheVariants as fault;
ghost use Rattle.lrc_topology.specs.declared.NodeInfo.{NodeInfo};
ghost use Rattle.lrc_rules.specs.declared.entry.Entry.{Entry as AnyEntry};
ghost use Rattle.lrc_rules.specs.States.{State};
ghost use Rattle.lrc_rules.specs.Steps.{step};
ghost use Rattle.lrc_rules.specs.Histories.{world_from, state_from, outcome_in};
ghost use Rattle.lrc_book.specs.Books.{IsStep, world_of, base_world};
ghost use Rattle.lrc_book.specs.Shown.{IsShownAfter};
ghost use Rattle.lrc_store.specs.Stores.{IsOf, AreFew};
ghost use Rattle.lrc_store.specs.Repairing.{IsRepairCursor};
ghost use Rattle.lrc_book.specs.Kept.{IsKept};

use crate::{Book, Command, Entry, Record, Reply, Seat};
use lrc_answers::{Answer, NO_SEAT};
use lrc_code::{FRAGMENTS, Fault, SessionNo};
use lrc_images::Image;
use lrc_leases::Grants;
use lrc_store::{RepairCursor, Store, count_grant};
use std::alloc::{AllocError, Global};

impl Book {
    /// Returns the entry that a call would add. Nothing changes. The looks after `commit` are of the state after the
    /// entry. If the command is refused or idle, that state is the one before. Else the load of each node changes by
    /// the seats that the entry takes and frees, and only the levels for which `can_change_level` holds can change.
    ///
    /// # Errors
    ///
    /// Only `Fault::HistoryFull`, where the history has as many entries as its limit.
    pub fn decide(&self, session: SessionNo, command: Command) -> Result<Entry, Fault>
        ensures asked { IfOk result (λ e. (e.session ≡ session) × (e.command ≡ command)) }
        ensures step { IfOk result (λ e. IsStep self.now e) }
        ensures shown { IfOk result (IsShownAfter self.now) }
        ensures room { IfOk result (λ e. length self.now.history < self.now.limit) }
        ensures err { IfErr result (λ e. (e ≡ fault.HistoryFull) × (length self.now.history ≡ self.now.limit)) }
    {
        if self.history.len() == self.limit {
            return Err(Fault::HistoryFull);
        }
        let reply = self
            .store
            .reply(&self.grants, self.repair_cursor, session, &command);
        Ok(Entry {
            session,
            command,
            reply,
        })
    }

    /// Makes room for one command of any kind, and changes nothing else.
    ///
    /// # Errors
    ///
    /// Only `Fault::OutOfMemory`, and not where there is room already.
    pub fn prepare(&mut self) -> Result<(), Fault>
        ensures same { (self.new.nodes ≡ self.old.nodes) × (self.new.limit ≡ self.old.limit) × (self.new.history ≡ self.old.history) × (self.new.base ≡ self.old.base) × (self.new.before ≡ self.old.before) }
        ensures ok { OnOk result (self.new.ready ≡ true) }
        ensures kept { self.old.ready ≡ true → self.new.ready ≡ true }
        ensures enough { self.old.ready ≡ true → IsOk result }
        ensures err { IfErr result (λ e. e ≡ fault.OutOfMemory) }
    {
        self.history.reserve(1)?;
        if self.seats.is_none() {
            self.seats = Some(room_for_seats(*self.history.allocator())?);
        }
        Ok(())
    }

    /// Makes the step of a session's command, in a book that has room for it.
    #[inline(always)] // as `Book::add`
    pub(crate) fn make_call(&mut self, session: SessionNo, command: Command)
        requires ready { self.old.ready ≡ true }
        requires room { length self.old.history < self.old.limit }
        ensures same { (self.new.nodes ≡ self.old.nodes) × (self.new.limit ≡ self.old.limit) × (self.new.base ≡ self.old.base) × (self.new.before ≡ self.old.before) }
        ensures history { self.new.history ≡ self.old.history ++ record { session = session; command = command; reply = (outcome_in self.old.nodes (world_of self.old) session command).0 } ∷ [] }
    {
        self.store.look_ahead(&command);
        let answer = self.store.answer_to(
            &self.grants,
            self.repair_cursor,
            &mut self.seats,
            session,
            &command,
        );
        enter(
            &mut *self.store,
            &mut self.grants,
            &mut self.repair_cursor,
            &self.base,
            &mut self.history,
            Record::new(session, command, answer),
        );
    }

    /// Adds an entry that was decided on this history, and makes its change. The book must have room for it; it can't fail.
    pub fn commit(&mut self, entry: Entry) -> Reply
        requires ready { self.old.ready ≡ true }
        requires room { length self.old.history < self.old.limit }
        requires step { IsStep self.old entry }
        ensures reply { result ≡ entry.reply }
        ensures same { (self.new.nodes ≡ self.old.nodes) × (self.new.limit ≡ self.old.limit) × (self.new.base ≡ self.old.base) × (self.new.before ≡ self.old.before) }
        ensures history { self.new.history ≡ self.old.history ++ entry ∷ [] }
    {
        let answer = Answer::of(&entry.reply, &mut self.seats);
        enter(
            &mut *self.store,
            &mut self.grants,
            &mut self.repair_cursor,
            &self.base,
            &mut self.history,
            Record::new(entry.session, entry.command, answer),
        );
        entry.reply
    }
}

/// Adds the next entry to a history that has room for it, and makes its change.
#[inline(always)] // so that an entry that changes nothing makes no call
fn enter(
    store: &mut Store,
    grants: &mut Grants,
    cursor: &mut RepairCursor,
    base: &Option<Box<Image>>,
    history: &mut Vec<Record>,
    made: Record,
)
    requires kept { IsOf (state_from store.old.topology (base_world base.now) history.old.items) store.old }
    requires few { AreFew grants.old }
    requires reserved { vec_len history.old < vec_capacity history.old }
    requires step { (outcome_in store.old.topology (world_from store.old.topology (base_world base.now) history.old.items) made.session made.command).0 ≡ made.reply }
    requires early { store.old.clock.value < 4294967292 }
    ensures nodes { store.new.topology ≡ store.old.topology }
    ensures history { history.new.items ≡ history.old.items ++ made ∷ [] }
    ensures kept { (limit : ℕ) → IsKept store.old grants.old cursor.old limit (base_world base.now) history.old.items → length history.old.items < limit
        → IsKept store.new grants.new cursor.new limit (base_world base.now) history.new.items }
{
    // The change is made from the record in its place, so that no copy of it is built before.
    history.push_reserved(made);
    let (last, past) = history.as_slice().split_last().unwrap();
    make(store, grants, cursor, base, past, last);
}

/// Makes the change of the entry `made`, which comes next after the entries `past`.
#[inline(always)] // a step that changes nothing then makes no call here
fn make(
    store: &mut Store,
    grants: &mut Grants,
    cursor: &mut RepairCursor,
    base: &Option<Box<Image>>,
    past: &[Record],
    made: &Record,
)
    ghost st: { State }
    requires state { state_from store.old.topology (base_world base.now) past.now ≡ st }
    requires kept { IsOf st store.old }
    requires few { AreFew grants.old }
    requires step { (outcome_in store.old.topology (world_from store.old.topology (base_world base.now) past.now) made.now.session made.now.command).0 ≡ made.now.reply }
    requires early { store.old.clock.value < 4294967292 }
    ensures nodes { store.new.topology ≡ store.old.topology }
    ensures kept { (limit : ℕ) → IsKept store.old grants.old cursor.old limit (base_world base.now) past.now → length past.now < limit
        → IsKept store.new grants.new cursor.new limit (base_world base.now) (past.now ++ made.now ∷ []) }
{
    if !made.answer.changes() {
        *cursor = cursor_after(*cursor, made);
        return;
    }
    count_grant(grants, &made.answer);
    match &made.answer {
        Answer::Granted(lease, _) => {
            store.grant(lease);
            if let Command::Next = made.command {
                *cursor = RepairCursor::At(lease.stripe);
            }
        }
        _ => {
            store.make_change(&made.command, &made.answer);
            *cursor = RepairCursor::First;
        }
    }
}

/// The repair cursor after an entry that changes no state: at the end, if `next` was idle.
#[inline(always)] // as `make`
fn cursor_after(cursor: RepairCursor, made: &Record) -> RepairCursor
    ensures { (nodes : List NodeInfo) (past : List AnyEntry) (st : State) → (step nodes past st made.now.session made.now.command).0 ≡ made.now.reply
        → IsRepairCursor nodes st cursor → IsRepairCursor nodes st result }
{
    if let Command::Next = made.command {
        if let Answer::Idle = made.answer {
            return RepairCursor::End;
        }
    }
    cursor
}

/// Room for the seats of a stripe.
fn room_for_seats(alloc: Global) -> Result<Box<[Seat; FRAGMENTS]>, AllocError> {
    Ok(Box::new(alloc, [NO_SEAT; FRAGMENTS])?)
}
