ghost use Rattle.std.specs.Prelude.{◌≡◌, ◌<◌, ◌≤◌, List, [], ◌∷◌, ◌++◌, length, take, true, None, IfSome};
ghost use Rattle.lrc_rules.specs.declared.entry.Entry.{Entry};
ghost use Rattle.lrc_book.specs.Books.{FaultFits, state_of};
ghost use Rattle.lrc_board.specs.Batches.{AreMadeBehind};
ghost use Rattle.lrc_board.specs.Refreshed.{OthersStay, no_changes};

use crate::changes::Changes;
use lrc_book::{Book, Command, Record};
use lrc_code::{Fault, SessionNo};

/// The most commands of one batch.
pub const BATCH_LIMIT: usize = 256;

/// The calls of a batch that were made. They stand one after another in the history.
#[derive(Clone, Copy, Debug, PartialEq, Eq)]
pub struct Batch {
    /// The place of the first call in the history, counted from 1; if none was made, that of the next call.
    pub first: u64,
    /// The number of calls.
    pub count: u64,
}

/// Makes commands of a session in order until one faults, and notes what they may have changed. Returns the number of
/// commands that were made, and the fault.
pub(crate) fn add_all(
    book: &mut Book,
    changes: &mut Changes,
    session: SessionNo,
    commands: &[Command],
) -> (usize, Option<Fault>)
    requires few { length commands.now ≤ 256 }
    requires none { changes.old ≡ no_changes }
    ensures some { result.0 ≤ length commands.now }
    ensures entries { AreMadeBehind book.old.history session (take result.0 commands.now) book.new.history }
    ensures same { (book.new.nodes ≡ book.old.nodes) × (book.new.limit ≡ book.old.limit) × (book.new.base ≡ book.old.base) × (book.new.before ≡ book.old.before) }
    ensures changes { OthersStay book.old.nodes changes.new (state_of book.old) (state_of book.new) }
    ensures unchanged { result.0 ≡ 0 → changes.new ≡ no_changes }
    ensures all { result.1 ≡ None → result.0 ≡ length commands.now }
    ensures fault { IfSome result.1 (λ f. (result.0 < length commands.now) × FaultFits book.new f) }
    ensures enough { book.old.ready ≡ true → length book.old.history < book.old.limit → 0 < length commands.now → 0 < result.0 }
{
    let mut count = 0;
    for command in commands.iter() {
        if let Err(fault) = book.add(session, *command) {
            return (count, Some(fault));
        }
        changes.add(last_entry(book));
        count += 1;
    }
    (count, None)
}

/// Returns the last entry of a book that has one.
pub(crate) fn last_entry(book: &Book) -> &Record
    requires { 0 < length book.now.history }
    ensures last { (before : List Entry) (e : Entry) → book.now.history ≡ before ++ e ∷ [] → result.now ≡ e }
    ensures few { length book.now.history ≤ book.now.limit }
{
    let history = book.history();
    &history[history.len() - 1]
}
