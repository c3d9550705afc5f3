ghost use Rattle.std.specs.Prelude.{◌≡◌, [], length, None, Some};
ghost use Rattle.lrc_rules.specs.Histories.{IsLegal, first_world, state_after};
ghost use Rattle.lrc_board.specs.Lines.{written};
ghost use Rattle.lrc_board.specs.Views.{IsBoard, empty_board};
ghost use Rattle.lrc_board.specs.Refreshed.{OthersStay, IsWhole, no_changes, both_changes, renewed};

use crate::changes::Changes;
use crate::line::LogPrefix;
use crate::naming::ViewNaming;
use crate::rule::{BoardWriter, Sees};
use lrc_book::Book;
use std::marker::Model;
use std::mem;
use std::sync::Wait;

/// The writer's half of the published view, and what its spare board still lacks: the last batch. Its model is the published
/// entries. It is not `Drop`; `end` ends it.
pub(crate) struct Publisher<N: ViewNaming> {
    last: Changes,
    /// `None` only within a call.
    writer: Option<BoardWriter<N>>,
}

impl<N: ViewNaming> Model for Publisher<N> {
    ghost use Rattle.std.specs.Prelude.{List, [], IsSome, IfSome};
    ghost use Rattle.std.specs.Option.{option_map_or};
    ghost use Rattle.lrc_rules.specs.declared.entry.Entry.{Entry};
    ghost use Rattle.lrc_board.specs.Views.{published};
    ghost use Rattle.lrc_board.specs.Refreshed.{AreBoards};

    ghost Value = { List Entry };

    ghost view = { λ s. option_map_or (λ w. published N.start w.desk.shown.value) s.writer [] };

    ghost invariant = { λ s. IsSome s.writer
        × IfSome s.writer (λ w. AreBoards N.log N.start N.topology s.last w.desk.shown.value w.desk.spare.value) };
}

/// Puts the writer back.
fn put_back<N: ViewNaming>(place: &mut Option<BoardWriter<N>>, writer: BoardWriter<N>)
    requires { place.old ≡ None }
    ensures { place.new ≡ Some writer }
{
    match place.replace(writer) {
        None => (),
        Some(_other) => unreachable!(),
    }
}

/// Updates the spare board from the book and publishes it. It waits until the spare board has no reader.
fn show<N: ViewNaming, R: Wait>(
    rt: &R,
    writer: BoardWriter<N>,
    book: &Book,
    last: &Changes,
    now: &Changes,
    count: u64,
    prefix: &LogPrefix,
) -> BoardWriter<N>
    requires log { prefix.now.book ≡ writer.desk.spare.value.book }
    requires whole { IsWhole book.now.nodes writer.desk.spare.value }
    requires next { IsBoard N.log N.start N.topology (renewed writer.desk.spare.value book.now (both_changes last.now now.now) count prefix.now.log) }
    ensures board { IsBoard N.log N.start N.topology result.desk.shown.value }
    ensures shown { result.desk.shown.value.lines ≡ prefix.now.log }
    ensures spare { result.desk.spare.value ≡ writer.desk.shown.value }
{
    let mut writer = writer;
    let (open, mut spare) = writer.desk.open(rt);
    spare.refresh(book, last, now, count, prefix);
    writer.desk = open.show_as::<Sees<N>>(spare);
    writer
}

impl<N: ViewNaming> Publisher<N> {
    /// Makes a publisher whose two boards have no entries, with a list for what the spare one lacks.
    pub(crate) fn new(writer: BoardWriter<N>, last: Changes) -> Publisher<N>
        requires last { last ≡ no_changes }
        requires shown { writer.desk.shown.value ≡ empty_board N.topology N.log }
        requires spare { writer.desk.spare.value ≡ empty_board N.topology N.log }
        ensures { result ≡ [] }
    {
        Publisher {
            last,
            writer: Some(writer),
        }
    }

    /// Publishes the board of a book after one more batch, whose changes it takes. It waits until the spare board has no
    /// reader.
    pub(crate) fn publish<R: Wait>(
        &mut self,
        rt: &R,
        book: &Book,
        changes: &mut Changes,
        count: u64,
        prefix: &LogPrefix,
    )
        requires log { prefix.now.book ≡ N.log }
        requires book { (book.now.nodes ≡ N.topology) × (book.now.history ≡ written N.start prefix.now.log)
            × (book.now.base ≡ first_world) }
        requires count { count ≡ length (written N.start prefix.now.log) }
        requires legal { IsLegal N.topology (written N.start prefix.now.log) }
        requires changes { OthersStay N.topology changes.old (state_after N.topology self.old) (state_after N.topology (written N.start prefix.now.log)) }
        ensures all { self.new ≡ written N.start prefix.now.log }
        ensures none { changes.new ≡ no_changes }
    {
        let writer = self.writer.take().unwrap();
        let writer = show(rt, writer, book, &self.last, changes, count, prefix);
        put_back(&mut self.writer, writer);
        mem::swap(&mut self.last, changes);
        changes.clear();
    }

    /// Ends the published view.
    pub(crate) fn end<R: Wait>(self, rt: &R) {
        let Publisher { last: _, writer } = self;
        if let Some(writer) = writer {
            writer.take(rt);
        }
    }
}
