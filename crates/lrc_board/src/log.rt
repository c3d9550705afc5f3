ghost use Rattle.std.specs.Prelude.{◌≡◌, ℕ, ◌≤◌, [], ◌++◌, length};
ghost use mathlib.Core.List.{IsPrefix};
ghost use Rattle.logbook.specs.Pages.{may_write};
ghost use Rattle.lrc_board.specs.Lines.{word_of, written};

use crate::line::{Line, LogPrefix, LogRule};
use crate::naming::ViewNaming;
use crate::steps::{AppendLine, CheckUnused, MakePermit, NextLine, NoGain};
use logbook::{Offer, Pen as Permit, Start, Word};
use lrc_book::Record;
use std::marker::{Model, PhantomData};

/// A log without lines, before it has a naming.
#[derive(Drop)]
pub struct NewLog {
    word: Word<Line, u64, LogRule>,
    pub permit: Permit,
    pub prefix: LogPrefix,
    ghost one_book: { (word ≡ word_of prefix.book) × (permit.book ≡ prefix.book) },
    ghost may: { permit.nib.right ≡ may_write },
    ghost empty: { prefix.log ≡ [] },
}

/// A log, as its only writer holds it: the prefix that has all lines, and the permit for the next one. Its model is the entries.
#[derive(Drop)]
pub struct Log<N: ViewNaming> {
    word: Word<Line, u64, LogRule>,
    permit: Permit,
    prefix: LogPrefix,
    of: PhantomData<N>,
}

impl<N: ViewNaming> Model for Log<N> {
    ghost use Rattle.std.specs.Prelude.{◌≡◌, List};
    ghost use Rattle.logbook.specs.Pages.{may_write};
    ghost use Rattle.lrc_rules.specs.declared.entry.Entry.{Entry};
    ghost use Rattle.lrc_board.specs.Lines.{word_of, written, permit_after};

    ghost Value = { List Entry };

    ghost view = { λ l. written N.start l.prefix.log };

    ghost invariant = { λ l. (l.prefix.book ≡ N.log) × (l.word ≡ word_of N.log) × (l.permit.book ≡ N.log)
        × (l.permit.nib.right ≡ may_write) × (permit_after N.start l.prefix.log ≡ l.permit.nib.key) };
}

/// Makes a permit, the right to write one line.
fn new_permit(word: &Word<Line, u64, LogRule>, prefix: &LogPrefix) -> Permit
    requires { word.now ≡ word_of prefix.now.book }
    ensures { (result.book ≡ prefix.now.book) × (result.nib.right ≡ may_write) }
{
    let mut seen = prefix.again();
    let mut permit = seen.no_pen();
    let mut offer: Offer<Line, u64, LogRule, NoGain> = seen.plain::<NoGain, (), CheckUnused>(&());
    word.compare_exchange::<MakePermit, NoGain>(0, 0, &mut seen, &mut offer, &mut permit);
    Word::<Line, u64, LogRule>::tracked(0, &mut permit);
    permit
}

/// Proves that of two prefixes of one log the shorter one's entries are a prefix of the other's.
pub fn begins(one: &LogPrefix, other: &LogPrefix)
    requires { one.now.book ≡ other.now.book }
    ensures { (permit : ℕ) → length (written permit one.now.log) ≤ length (written permit other.now.log)
        → IsPrefix (written permit one.now.log) (written permit other.now.log) }
{
    let mut both = one.again();
    both.learn(other);
}

impl NewLog {
    /// Makes a new log.
    pub fn new() -> NewLog {
        let (prefix, mut first, _second) = LogPrefix::open(Start::alone(), 0, 0);
        let word = Word::tracked(0, &mut first);
        let permit = new_permit(&word, &prefix);
        NewLog {
            word,
            permit,
            prefix,
        }
    }

    /// Gives the log its naming.
    pub fn named<N: ViewNaming>(self) -> Log<N>
        requires { (self.prefix.book ≡ N.log) × (self.permit.nib.key ≡ N.start) }
        ensures { result ≡ [] }
    {
        let NewLog {
            word,
            permit,
            prefix,
        } = self;
        Log {
            word,
            permit,
            prefix,
            of: PhantomData,
        }
    }
}

impl<N: ViewNaming> Log<N> {
    /// Returns the prefix that has all lines.
    pub fn prefix(&self) -> LogPrefix
        ensures { (result.book ≡ N.log) × (written N.start result.log ≡ self.now) }
    {
        self.prefix.again()
    }

    /// Proves that any prefix that was seen has entries that are a prefix of this log's.
    pub fn covers(&mut self, seen: &LogPrefix)
        requires { seen.now.book ≡ N.log }
        ensures same { self.new ≡ self.old }
        ensures covers { IsPrefix (written N.start seen.now.log) self.old }
    {
        let mut both = self.prefix.again();
        both.learn(seen);
        let mut offer: Offer<Line, u64, LogRule, NoGain> = both.plain::<NoGain, (), CheckUnused>(
            &(),
        );
        self.word
            .compare_exchange::<CheckUnused, NoGain>(0, 0, &mut both, &mut offer, &mut self.permit);
    }

    /// Appends a line with these entries. The log has only one permit at a time, so no other writer can have appended, and it
    /// cannot fail.
    pub fn add(&mut self, entries: &[Record])
        ensures { self.new ≡ self.old ++ entries.now }
    {
        let next_line = NextLine {
            entries,
            next: new_permit(&self.word, &self.prefix),
        };
        let mut offer: Offer<Line, u64, LogRule, NoGain> = self
            .prefix
            .plain::<NoGain, NextLine<'_>, AppendLine>(&next_line);
        self.word
            .compare_exchange::<AppendLine, NoGain>(
                0,
                0,
                &mut self.prefix,
                &mut offer,
                &mut self.permit,
            );
        self.permit = next_line.next;
    }
}
