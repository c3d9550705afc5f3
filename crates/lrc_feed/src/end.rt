ghost use Rattle.std.specs.Prelude.{◌≡◌, ◌↔◌, ◌+◌, ◌-◌, ◌<◌, ◌≤◌, [], ◌∷◌, ◌++◌, length, List, true, false, IsFalse, IfOk, IfSome, IfNone};
ghost use mathlib.Core.List.{IsPrefix};
ghost use Rattle.lrc_feed.specs.declared.feed.FedCall.{FedCall as Call};
ghost use Rattle.lrc_feed.specs.Feeds.{passed};

use crate::feed::{FEED_LIMIT, FedCall, Feed};
use crate::law::FedCalls;
use std::alloc::{AllocError, Global};
use std::marker::Model;
use std::sync::Arc;

/// An end of a feed: that of the published book, or of a viewer.
#[derive(Drop)]
pub struct FeedEnd {
    feed: Arc<Feed, Global>,
    calls: FedCalls,
    count: usize,
    place: u64,
}

impl Model for FeedEnd {
    ghost use Rattle.std.specs.Prelude.{◌≡◌, ◌+◌, ◌≤◌, length, take};
    ghost use Rattle.std.specs.Arc.{arc_value};
    ghost use Rattle.lrc_feed.specs.Feeds.{FeedAt};

    ghost Value = { FeedAt };

    ghost view = { λ e. record { feed = e.calls.book; calls = take e.count e.calls.log; known = length e.calls.log; place = e.place } };

    ghost invariant = { λ e. (e.calls.book ≡ (arc_value e.feed).head.book) × (e.count ≤ length e.calls.log)
        × (e.count ≤ 1048576) × (e.count ≤ e.place) × (e.place ≤ 9223372036854775808 + e.count) };
}

impl FeedEnd {
    /// Makes the end of a new feed, after `place` entries of the store.
    pub fn new(alloc: Global, place: u64) -> Result<FeedEnd, AllocError>
        requires { place ≤ 9223372036854775808 }
        ensures { IfOk result (λ e. (e.calls ≡ []) × (e.known ≡ 0) × (e.place ≡ place)) }
    {
        let (feed, calls) = Feed::new(alloc)?;
        let feed = Arc::new(alloc, feed)?;
        Ok(FeedEnd {
            feed,
            calls,
            count: 0,
            place,
        })
    }

    /// Makes another end of the feed, at the same place.
    pub fn again(&self) -> Result<FeedEnd, AllocError>
        ensures { IfOk result (λ e. e ≡ self.now) }
    {
        Ok(FeedEnd {
            feed: Arc::try_clone(&self.feed)?,
            calls: self.calls.again(),
            count: self.count,
            place: self.place,
        })
    }

    /// Returns the number of entries of the store up to here.
    pub fn place(&self) -> u64
        ensures { result ≡ self.now.place }
    {
        self.place
    }

    /// Reads the next call and moves past it, if it is written and the feed is not full. Also reports whether the feed
    /// is finished: if it is, and no call is read, the end has all of its calls.
    pub fn next(&mut self) -> (Option<FedCall>, bool)
        ensures some { IfSome result.0 (λ call. (length self.old.calls < 1048576)
            × (self.new ≡ record (passed self.old call) { known = self.new.known })) }
        ensures none { IfNone result.0 (self.new ≡ record self.old { known = self.new.known }) }
        ensures more { self.old.known ≤ self.new.known }
    {
        // Before the call is looked for: it may be written, and then the feed finished, between the two.
        let is_finished = self.feed.is_finished();
        (self.read(), is_finished)
    }

    /// Reads the next call and moves past it, if it is written and the feed is not full.
    fn read(&mut self) -> Option<FedCall>
        ensures some { IfSome result (λ call. (length self.old.calls < 1048576)
            × (self.new ≡ record (passed self.old call) { known = self.new.known })) }
        ensures none { IfNone result (self.new ≡ record self.old { known = self.new.known }) }
        ensures more { self.old.known ≤ self.new.known }
    {
        if self.count >= FEED_LIMIT {
            return None;
        }
        let call = self.feed.read(self.count, &mut self.calls)?;
        self.count += 1;
        self.place += 1;
        Some(call)
    }

    /// Moves back before the call that was read last.
    pub fn unread(&mut self)
        requires { 0 < length self.old.calls }
        ensures { (before : List Call) (last : Call) → self.old.calls ≡ before ++ last ∷ []
            → self.new ≡ record self.old { calls = before; place = self.old.place - 1 } }
    {
        self.count -= 1;
        self.place -= 1;
    }

    /// Says that the feed gets no more calls.
    pub fn finish(&self) {
        self.feed.finish()
    }

    /// Reports whether the feed has as many calls before here as it can have.
    pub fn is_full(&self) -> bool
        ensures { IsFalse result ↔ (length self.now.calls < 1048576) }
    {
        self.count >= FEED_LIMIT
    }

    /// Makes room for the next call.
    pub fn reserve(&self, alloc: Global) -> Result<(), AllocError>
        requires { length self.now.calls < 1048576 }
    {
        self.feed.make_cell(alloc, &self.calls, self.count)
    }

    /// Writes the next call and moves past it, in a feed that has room for it. Returns whether it did. It did not where
    /// another end has written since.
    pub fn write(&mut self, call: FedCall) -> bool
        requires { length self.old.calls < 1048576 }
        ensures done { result ≡ true → (self.old.known ≡ length self.old.calls)
            × (self.new ≡ record (passed self.old call) { known = self.old.known + 1 }) }
        ensures not_done { result ≡ false → (length self.old.calls < self.new.known)
            × (self.new ≡ record self.old { known = self.new.known }) }
    {
        if !self.feed.write(self.count, &mut self.calls, call) {
            return false;
        }
        self.count += 1;
        self.place += 1;
        true
    }
}

/// Proves that of two ends of one feed the calls of one are a prefix of the other's.
pub fn begins(one: &FeedEnd, other: &FeedEnd)
    requires { one.now.feed ≡ other.now.feed }
    ensures { length one.now.calls ≤ length other.now.calls → IsPrefix one.now.calls other.now.calls }
{
    let mut both = one.calls.again();
    both.learn(&other.calls);
}
