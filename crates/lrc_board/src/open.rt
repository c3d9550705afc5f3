ghost use Rattle.std.specs.Prelude.{◌≡◌, ◌≢◌, ◌≤◌, [], replicate, IfOk, IfErr};
ghost use Rattle.lrc_topology.specs.Nodes.{AreNodes};
ghost use Rattle.lrc_rules.specs.Histories.{first_world};
ghost use Rattle.lrc_board.specs.declared.open_error.OpenError.TheVariants as error;
ghost use Rattle.lrc_board.specs.Views.{empty_board};
ghost use Rattle.lrc_board.specs.Refreshed.{no_changes};

use crate::board::Board;
use crate::changes::Changes;
use crate::keeper::Keeper;
use crate::line::LogPrefix;
use crate::log::NewLog;
use crate::naming::ViewNaming;
use crate::open_error::OpenError;
use crate::publisher::Publisher;
use crate::rule::{BoardWriter, ViewRule};
use crate::viewer::Viewer;
use left_right::reader::Factory;
use left_right::writer::Writer;
use lrc_book::Book;
use lrc_topology::Topology;
use std::alloc::Global;
use std::sync::Wait;

/// Makes `readers` viewers that have seen no entry.
fn viewers<N: ViewNaming>(
    alloc: Global,
    factory: &Factory<Board, (), ViewRule<N>>,
    prefix: &LogPrefix,
    readers: u8,
) -> Result<Vec<Viewer<N>>, OpenError>
    requires prefix { (prefix.now.book ≡ N.log) × (prefix.now.log ≡ []) }
    requires nodes { AreNodes N.topology }
    ensures ok { IfOk result (λ v. v.items ≡ replicate readers []) }
    ensures err { IfErr result (λ e. e ≢ error.BadCount) }
{
    let mut made = Vec::with_capacity(alloc, readers as usize)?;
    for _number in 0..readers {
        let Ok(reader) = factory.reader() else {
            return Err(OpenError::NoReader);
        };
        made.push_reserved(Viewer::new(reader, prefix.again()));
    }
    Ok(made)
}

/// Replaces the spare board. `Writer::new` has no clause that says what its second copy is.
fn put_spare<N: ViewNaming, R: Wait>(rt: &R, writer: BoardWriter<N>, board: Board) -> BoardWriter<N>
    ensures shown { result.desk.shown.value ≡ writer.desk.shown.value }
    ensures spare { result.desk.spare.value ≡ board }
{
    let mut writer = writer;
    let (open, mut spare) = writer.desk.open(rt);
    *spare = board;
    writer.desk = open.shelve(spare);
    writer
}

/// Makes the writer of the boards, which both are of a book without entries.
fn writer_of<N: ViewNaming, R: Wait>(
    alloc: Global,
    rt: &R,
    topology: &Topology,
    prefix: &LogPrefix,
    readers: u8,
) -> Result<BoardWriter<N>, OpenError>
    requires log { (prefix.now.book ≡ N.log) × (prefix.now.log ≡ []) }
    requires nodes { topology.now ≡ N.topology }
    requires readers { (1 ≤ readers) × (readers ≤ 8) }
    ensures shown { IfOk result (λ w. w.desk.shown.value ≡ empty_board N.topology N.log) }
    ensures spare { IfOk result (λ w. w.desk.spare.value ≡ empty_board N.topology N.log) }
    ensures err { IfErr result (λ e. e ≡ error.OutOfMemory) }
{
    let first = Board::new(alloc, topology, prefix.again())?;
    let second = Board::new(alloc, topology, prefix.again())?;
    let blank = Board::blank(alloc, prefix.again());
    let writer = Writer::new(alloc, first, blank, readers as usize)?;
    Ok(put_spare(rt, writer, second))
}

/// Makes the writer of the boards, and the viewers of them, which have seen no entry.
fn writer_and_viewers<N: ViewNaming, R: Wait>(
    alloc: Global,
    rt: &R,
    topology: &Topology,
    prefix: &LogPrefix,
    readers: u8,
) -> Result<(BoardWriter<N>, Vec<Viewer<N>>), OpenError>
    requires log { (prefix.now.book ≡ N.log) × (prefix.now.log ≡ []) }
    requires nodes { topology.now ≡ N.topology }
    requires are_nodes { AreNodes N.topology }
    requires readers { (1 ≤ readers) × (readers ≤ 8) }
    ensures shown { IfOk result (λ r. r.0.desk.shown.value ≡ empty_board N.topology N.log) }
    ensures spare { IfOk result (λ r. r.0.desk.spare.value ≡ empty_board N.topology N.log) }
    ensures viewers { IfOk result (λ r. r.1.items ≡ replicate readers []) }
    ensures err { IfErr result (λ e. e ≢ error.BadCount) }
{
    let writer = writer_of::<N, R>(alloc, rt, topology, prefix, readers)?;
    match viewers(alloc, writer.factory(), prefix, readers) {
        Ok(viewers) => Ok((writer, viewers)),
        Err(error) => {
            writer.take(rt);
            Err(error)
        }
    }
}

/// Makes the publisher of the boards, the viewers of them, which have seen no entry, and a list without changes.
fn publisher_of<N: ViewNaming, R: Wait>(
    alloc: Global,
    rt: &R,
    topology: &Topology,
    prefix: &LogPrefix,
    readers: u8,
) -> Result<(Publisher<N>, Vec<Viewer<N>>, Changes), OpenError>
    requires log { (prefix.now.book ≡ N.log) × (prefix.now.log ≡ []) }
    requires nodes { topology.now ≡ N.topology }
    requires are_nodes { AreNodes N.topology }
    requires readers { (1 ≤ readers) × (readers ≤ 8) }
    ensures publisher { IfOk result (λ r. r.0 ≡ []) }
    ensures viewers { IfOk result (λ r. r.1.items ≡ replicate readers []) }
    ensures changes { IfOk result (λ r. r.2 ≡ no_changes) }
    ensures err { IfErr result (λ e. e ≢ error.BadCount) }
{
    let last = Changes::new(alloc)?;
    let now = Changes::new(alloc)?;
    let (writer, viewers) = writer_and_viewers::<N, R>(alloc, rt, topology, prefix, readers)?;
    Ok((Publisher::new(writer, last), viewers, now))
}

/// Drops a book and its log.
fn close(book: Book, _log: NewLog) {
    book.close();
}

impl<N: ViewNaming> Keeper<N> {
    /// Makes the keeper of a new book, and its viewers, which have seen no entry. `N` names the log, the nodes and the limit of
    /// the history, up to 1,000,000 entries. A history at its limit takes no command. It takes the runtime because the writer
    /// waits for readers of a board, but a new board has none.
    ///
    /// # Errors
    ///
    /// `OpenError::OutOfMemory`, or `OpenError::NoReader` if `left_right` returns no reader.
    pub fn open<R: Wait>(
        alloc: Global,
        rt: &R,
        book: Book,
        log: NewLog,
        readers: u8,
    ) -> Result<(Keeper<N>, Vec<Viewer<N>>), OpenError>
        requires book { (book.history ≡ []) × (book.nodes ≡ N.topology) × (book.limit ≡ N.limit) × (book.base ≡ first_world) × (book.before ≡ 0) }
        requires log { (log.prefix.book ≡ N.log) × (log.permit.nib.key ≡ N.start) }
        requires readers { (1 ≤ readers) × (readers ≤ 8) }
        ensures book { IfOk result (λ r. (r.0.nodes ≡ book.nodes) × (r.0.limit ≡ book.limit) × (r.0.history ≡ []) × (r.0.ready ≡ book.ready) × (r.0.base ≡ first_world) × (r.0.before ≡ 0)) }
        ensures viewers { IfOk result (λ r. r.1.items ≡ replicate readers []) }
        ensures err { IfErr result (λ e. e ≢ error.BadCount) }
    {
        book.history();
        match publisher_of::<N, R>(alloc, rt, book.topology(), &log.prefix, readers) {
            Ok((publisher, viewers, changes)) => {
                Ok((Keeper::new(book, log.named(), publisher, changes), viewers))
            }
            Err(error) => {
                close(book, log);
                Err(error)
            }
        }
    }
}
