ghost use Rattle.std.specs.Prelude.{◌≡◌, ◌↔◌, ◌<◌, ◌≤◌, ◌+◌, [], ◌∷◌, ◌++◌, length, take, true, None, IfSome, IfOk, IfErr, OnErr, IsOk, IsErrOf};
ghost use mathlib.Core.List.{IsPrefix};
ghost use Rattle.lrc_code.specs.declared.fault.Fault.TheVariants as fault;
ghost use Rattle.lrc_book.specs.Books.{FaultFits, world_of};
ghost use Rattle.lrc_rules.specs.Histories.{IsLegal, IsLegalFrom, first_world, outcome_in};
ghost use Rattle.lrc_board.specs.Batches.{AreMadeBehind};
ghost use Rattle.lrc_board.specs.Refreshed.{no_changes};

use crate::batch::{Batch, add_all, last_entry};
use crate::changes::Changes;
use crate::log::Log;
use crate::naming::ViewNaming;
use crate::publisher::Publisher;
use crate::receipt::Receipt;
use crate::viewer::Viewer;
use lrc_book::{Book, Command};
use lrc_code::{Fault, SessionNo};
use std::marker::Model;
use std::sync::Wait;

/// The writer of the published view: a book, the log of its entries, the publisher of its boards, and a list for what a
/// batch may have changed, which is empty between batches. Its model is the book. It is not `Drop`; `into_book` ends it.
pub struct Keeper<N: ViewNaming> {
    book: Book,
    log: Log<N>,
    publisher: Publisher<N>,
    changes: Changes,
}

impl<N: ViewNaming> Model for Keeper<N> {
    ghost use Rattle.std.specs.Prelude.{◌≡◌};
    ghost use Rattle.lrc_rules.specs.Histories.{first_world};
    ghost use Rattle.lrc_book.specs.Books.{BookView};
    ghost use Rattle.lrc_board.specs.Refreshed.{no_changes};

    ghost Value = { BookView };

    ghost view = { λ k. k.book };

    // the log has the entries of the history, and so has the published board; the list is empty
    ghost invariant = { λ k. (k.book.nodes ≡ N.topology) × (k.book.limit ≡ N.limit) × (k.log ≡ k.book.history) × (k.publisher ≡ k.book.history) × (k.changes ≡ no_changes) × (k.book.base ≡ first_world) × (k.book.before ≡ 0) };
}

impl<N: ViewNaming> Keeper<N> {
    /// Makes the keeper of a book that began empty, with no entry before it, and has no entry.
    pub(crate) fn new(
        book: Book,
        log: Log<N>,
        publisher: Publisher<N>,
        changes: Changes,
    ) -> Keeper<N>
        requires book { (book.history ≡ []) × (book.nodes ≡ N.topology) × (book.limit ≡ N.limit) × (book.base ≡ first_world) × (book.before ≡ 0) }
        requires log { log ≡ [] }
        requires publisher { publisher ≡ [] }
        requires changes { changes ≡ no_changes }
        ensures { result ≡ book }
    {
        Keeper {
            book,
            log,
            publisher,
            changes,
        }
    }

    /// Returns the book.
    pub fn book(&self) -> &Book
        ensures value { result.now ≡ self.now }
        ensures named { (self.now.nodes ≡ N.topology) × (self.now.limit ≡ N.limit) × (self.now.base ≡ first_world) × (self.now.before ≡ 0) }
    {
        &self.book
    }

    /// Makes one step of the placement object, adds its entry to the history and publishes it: a batch of one command. It
    /// waits until no viewer reads the copy that was published before the last batch. A `Fault` changes nothing.
    ///
    /// # Errors
    ///
    /// `Fault::HistoryFull` if the history has as many entries as its limit; otherwise only `Fault::OutOfMemory`.
    pub fn apply<R: Wait>(
        &mut self,
        rt: &R,
        session: SessionNo,
        command: Command,
    ) -> Result<Receipt, Fault>
        ensures reply { IfOk result (λ r. r.reply ≡ (outcome_in self.old.nodes (world_of self.old) session command).0) }
        ensures place { IfOk result (λ r. r.place ≡ length self.new.history) }
        ensures entry { IfOk result (λ r. self.new.history ≡ self.old.history ++ record { session = session; command = command; reply = r.reply } ∷ []) }
        ensures same { (self.new.nodes ≡ self.old.nodes) × (self.new.limit ≡ self.old.limit) × (self.new.base ≡ self.old.base) × (self.new.before ≡ self.old.before) }
        ensures full { IsErrOf result fault.HistoryFull ↔ (length self.old.history ≡ self.old.limit) }
        ensures fault { IfErr result (FaultFits self.old) }
        ensures enough { self.old.ready ≡ true → length self.old.history < self.old.limit → IsOk result }
        ensures err { OnErr result (self.new.history ≡ self.old.history) }
    {
        match self.apply_all(rt, session, &[command]) {
            (batch, None) => Ok(Receipt {
                place: batch.first,
                reply: last_entry(&self.book).reply(),
            }),
            (_, Some(fault)) => Err(fault),
        }
    }

    /// Makes up to 256 commands of a session in order, each as one step of the placement object, adds their entries to
    /// the history and publishes them together. Returns which calls were made, and the fault if one ended the batch: the
    /// commands before it are made and published, and it and those after it are not. If no command is made, nothing
    /// changes. It waits until no viewer reads the copy that was published before the last batch.
    ///
    /// # Errors
    ///
    /// `Fault::HistoryFull` if commands are left and the history has as many entries as its limit; otherwise only
    /// `Fault::OutOfMemory`.
    pub fn apply_all<R: Wait>(
        &mut self,
        rt: &R,
        session: SessionNo,
        commands: &[Command],
    ) -> (Batch, Option<Fault>)
        requires few { length commands.now ≤ 256 }
        ensures first { result.0.first ≡ length self.old.history + 1 }
        ensures some { result.0.count ≤ length commands.now }
        ensures entries { AreMadeBehind self.old.history session (take result.0.count commands.now) self.new.history }
        ensures legal { IsLegalFrom self.new.nodes self.new.base self.new.history }
        ensures same { (self.new.nodes ≡ self.old.nodes) × (self.new.limit ≡ self.old.limit) × (self.new.base ≡ self.old.base) × (self.new.before ≡ self.old.before) }
        ensures all { result.1 ≡ None → result.0.count ≡ length commands.now }
        ensures fault { IfSome result.1 (λ f. (result.0.count < length commands.now) × FaultFits self.new f) }
        ensures enough { self.old.ready ≡ true → length self.old.history < self.old.limit → 0 < length commands.now → 0 < result.0.count }
    {
        let before = self.book.history().len();
        let (count, fault) = add_all(&mut self.book, &mut self.changes, session, commands);
        let batch = Batch {
            first: before as u64 + 1,
            count: count as u64,
        };
        let history = self.book.history();
        if count == 0 {
            return (batch, fault);
        }
        log_entries(&mut self.log, &self.book, before);
        let place = history.len() as u64;
        self.publisher.publish(rt, &self.book, &mut self.changes, place, &self.log.prefix());
        (batch, fault)
    }

    /// Proves that the entries that the viewer has seen are a prefix of the history.
    pub fn covers(&mut self, viewer: &Viewer<N>)
        ensures same { self.new ≡ self.old }
        ensures covers { IsPrefix viewer.now self.old.history }
    {
        viewer.count();
        self.log.covers(&viewer.seen);
    }

    /// Moves the viewer to the end of the history.
    pub fn show(&mut self, viewer: &mut Viewer<N>)
        ensures same { self.new ≡ self.old }
        ensures legal { IsLegal N.topology viewer.new }
        ensures later { IsPrefix viewer.old viewer.new }
        ensures all { viewer.new ≡ self.old.history }
    {
        self.covers(viewer);
        self.advance(viewer);
    }

    /// Moves the viewer to the end of the history. `covers` shows that it moves forward, also where it was called before the
    /// last entry was made.
    pub fn advance(&self, viewer: &mut Viewer<N>)
        ensures legal { IsLegal N.topology viewer.new }
        ensures all { viewer.new ≡ self.now.history }
    {
        let count = self.book.history().len() as u64;
        viewer.see(count, &self.log.prefix());
    }

    /// Ends the published view and returns the book. It waits for looks that have begun. `left_right` has no board for later
    /// ones.
    pub fn into_book<R: Wait>(self, rt: &R) -> Book
        ensures { result ≡ self }
    {
        let Keeper {
            book,
            log: _,
            publisher,
            changes: _,
        } = self;
        publisher.end(rt);
        book
    }
}

/// Adds to a log the entries of a book behind the first `before`, which it lacks.
fn log_entries<N: ViewNaming>(log: &mut Log<N>, book: &Book, before: usize)
    requires lacks { take before book.now.history ≡ log.old }
    requires within { before ≤ length book.now.history }
    ensures { log.new ≡ book.now.history }
{
    let history = book.history();
    log.add(&history[before..]);
}
