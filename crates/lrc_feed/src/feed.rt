ghost use Rattle.std.specs.Prelude.{◌≡◌, ◌+◌, ◌<◌, ◌≤◌, [], ◌∷◌, ◌++◌, length, slice_get, Some, IfOk, IfSome, MatchBool};
ghost use mathlib.Core.List.{IsPrefix};
ghost use Rattle.boxcar.specs.Table.{Tagged};
ghost use Rattle.lrc_feed.specs.Rules.{head_of, tag_numbers};

use crate::cells::{CELLS, Cell, Fed, Segment, new_row};
use crate::law::{Append, FedCalls, Head, NoGain};
use logbook::{Offer, Start, Word};
use lrc_code::SessionNo;
use lrc_rules::Command;
use once_cell::race::OnceBool;
use std::alloc::{AllocError, Global};

/// The most calls of a feed.
pub const FEED_LIMIT: usize = 1_048_576;

/// A call of a published book.
#[derive(Clone, Copy, Debug, PartialEq, Eq)]
pub struct FedCall {
    pub session: SessionNo,
    pub command: Command,
}

/// The calls of a published book: their number, and segments of cells.
#[derive(Drop)]
pub(crate) struct Feed {
    pub(crate) head: Head,
    segments: Vec<Segment>,
    finished: OnceBool,
    ghost head_is: { head ≡ head_of head.book },
    ghost row: { Tagged (tag_numbers head.book) 0 1024 segments.items },
}

impl Feed {
    /// Makes a feed without calls, and returns what was seen of it.
    pub(crate) fn new(alloc: Global) -> Result<(Feed, FedCalls), AllocError>
        ensures { IfOk result (λ r. (r.1.book ≡ r.0.head.book) × (r.1.log ≡ [])) }
    {
        let (calls, mut first, _second) = FedCalls::open(Start::alone(), 0, 0);
        let head = Word::tracked(0, &mut first);
        let segments = new_row(alloc, &calls, 0)?;
        let feed = Feed {
            head,
            segments,
            finished: OnceBool::new(),
        };
        Ok((feed, calls))
    }

    /// Returns the cell of the call of this number, from 0, if its segment is made.
    fn cell(&self, number: usize) -> Option<&Cell>
        ensures { IfSome result (λ cell. cell.now.tag ≡ number ∷ tag_numbers self.now.head.book) }
    {
        let segment = self.segments.get(number / CELLS)?.get()?;
        segment.get(number % CELLS)
    }

    /// Makes the segment of the call of this number, unless it is made.
    pub(crate) fn make_cell(
        &self,
        alloc: Global,
        calls: &FedCalls,
        number: usize,
    ) -> Result<(), AllocError>
        requires feed { calls.now.book ≡ self.now.head.book }
        requires few { number < 1048576 }
    {
        let segment = &self.segments[number / CELLS];
        if segment.get().is_none() {
            let cells = new_row(alloc, calls, number / CELLS * CELLS)?;
            drop(segment.set_written(cells));
        }
        Ok(())
    }

    /// Returns the call of this number, once it is written.
    pub(crate) fn read(&self, number: usize, calls: &mut FedCalls) -> Option<FedCall>
        requires feed { calls.old.book ≡ self.now.head.book }
        ensures feed { calls.new.book ≡ calls.old.book }
        ensures later { IsPrefix calls.old.log calls.new.log }
        ensures call { IfSome result (λ call. slice_get calls.new.log number ≡ Some call) }
    {
        let fed = self.cell(number)?.get()?;
        calls.learn(&fed.calls);
        Some(fed.call)
    }

    /// Adds a call after `count` others and writes it to its cell. Returns whether it did. It did not where there are more.
    pub(crate) fn write(&self, count: usize, calls: &mut FedCalls, call: FedCall) -> bool
        requires feed { calls.old.book ≡ self.now.head.book }
        requires few { count < 1048576 }
        requires known { count ≤ length calls.old.log }
        ensures feed { calls.new.book ≡ calls.old.book }
        ensures added { MatchBool result ((length calls.old.log ≡ count) × (calls.new.log ≡ calls.old.log ++ call ∷ []))
            (IsPrefix calls.old.log calls.new.log × (count < length calls.new.log)) }
    {
        if !self.append(count as u64, calls, call) {
            return false;
        }
        self.put(count, calls, call);
        true
    }

    /// Adds a call after `count` others, without its cell. Returns whether it did.
    fn append(&self, count: u64, calls: &mut FedCalls, call: FedCall) -> bool
        requires feed { calls.old.book ≡ self.now.head.book }
        requires few { count < 1048576 }
        requires known { count ≤ length calls.old.log }
        ensures feed { calls.new.book ≡ calls.old.book }
        ensures added { MatchBool result ((length calls.old.log ≡ count) × (calls.new.log ≡ calls.old.log ++ call ∷ []))
            (IsPrefix calls.old.log calls.new.log × (count < length calls.new.log)) }
    {
        let mut offer: Offer<FedCall, u64, crate::law::FeedLaw, NoGain> = calls.plain::<
            NoGain,
            FedCall,
            Append,
        >(&call);
        let mut pen = calls.no_pen();
        let found = self
            .head
            .compare_exchange::<Append, NoGain>(count, count + 1, calls, &mut offer, &mut pen);
        found == count
    }

    /// Writes a call that was added to its cell.
    fn put(&self, number: usize, calls: &FedCalls, call: FedCall)
        requires feed { calls.now.book ≡ self.now.head.book }
        requires there { slice_get calls.now.log number ≡ Some call }
    {
        if let Some(cell) = self.cell(number) {
            let fed = Fed {
                call,
                calls: calls.again(),
            };
            drop(cell.set_written(fed));
        }
    }

    pub(crate) fn is_finished(&self) -> bool {
        self.finished.get().is_some()
    }

    pub(crate) fn finish(&self) {
        let _first = self.finished.set(true);
    }
}
