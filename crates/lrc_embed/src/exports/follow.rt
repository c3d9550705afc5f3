//! A viewer that makes the calls of the published book.

ghost use Rattle.std.specs.Prelude.{◌≡◌, ◌≢◌, ◌⊎◌, ◌≤◌, ◌↔◌, ◌∷◌, [], None, length};
ghost use Rattle.lrc_code.specs.declared.fault.Fault.TheVariants.{HistoryFull};
ghost use Rattle.lrc_embed.specs.Calls.{Of, entry_count};
ghost use Rattle.lrc_embed.specs.Published.{Both, IsAt, HasFollowed};
ghost use Rattle.lrc_embed.specs.Statuses.{IsOneOf};

use crate::LrcViewer;
use crate::exports::place::is_at;
use crate::status::{DONE, FULL, IS_CLOSED, MOVED, OUT_OF_MEMORY};
use lrc_book::Book;
use lrc_code::Fault;
use lrc_feed::{FEED_LIMIT, FeedEnd};
use std::alloc::Global;

/// Makes the calls of the published book that the viewer has not made yet. Writes the number of entries of the store up to
/// there, and whether the book is still published.
#[unsafe(no_mangle)]
pub extern "C" fn lrc_embed_follow(
    alloc: Global,
    viewer: &mut LrcViewer,
    place: &mut u64,
    is_published: &mut u8,
) -> u32
    ensures followed { (result ≢ IS_CLOSED) → Both viewer.old.book.owned.book viewer.old.feed.owned.end
        (λ b e. Both viewer.new.book.owned.book viewer.new.feed.owned.end (HasFollowed b e)) }
    ensures done { (result ≡ DONE) → Of viewer.new.book.owned.book (λ b. place.new ≡ entry_count b) }
    ensures published { (result ≡ DONE) → is_published.new ≤ 1 }
    ensures there { (result ≢ IS_CLOSED) → (result ≢ MOVED)
        → Both viewer.new.book.owned.book viewer.new.feed.owned.end IsAt }
    ensures moved { (result ≢ IS_CLOSED)
        → Both viewer.old.book.owned.book viewer.old.feed.owned.end (λ b e. (result ≡ MOVED) ↔ (¬ IsAt b e)) }
    ensures full { (result ≡ FULL) → Of viewer.new.book.owned.book (λ b. length b.history ≡ b.limit) }
    ensures closed { (result ≡ IS_CLOSED)
        → ((viewer.old.book.owned.book ≡ None) ⊎ (viewer.old.feed.owned.end ≡ None))
        × (viewer.new.book.owned.book ≡ viewer.old.book.owned.book)
        × (viewer.new.feed.owned.end ≡ viewer.old.feed.owned.end) }
    ensures statuses { IsOneOf result (DONE ∷ IS_CLOSED ∷ FULL ∷ OUT_OF_MEMORY ∷ MOVED ∷ []) }
    ensures unwritten { (result ≢ DONE) → (place.new ≡ place.old) × (is_published.new ≡ is_published.old) }
{
    let Some(mut end) = viewer.feed.take(alloc) else {
        return IS_CLOSED;
    };
    let Some(mut book) = viewer.book.take(alloc) else {
        viewer.feed.put(end);
        return IS_CLOSED;
    };
    let (status, is_finished) = catch_up(&mut book, &mut end);
    if status == DONE {
        *place = end.place();
        *is_published = u8::from(!is_finished);
    }
    viewer.book.put(book);
    viewer.feed.put(end);
    status
}

/// Makes the calls of the feed from here on. A fault ends it before its call. Returns the status, and whether the feed
/// is finished and all of its calls are made.
fn catch_up(book: &mut Book, end: &mut FeedEnd) -> (u32, bool)
    ensures followed { HasFollowed book.old end.old book.new end.new }
    ensures there { (result.0 ≢ MOVED) → IsAt book.new end.new }
    ensures moved { (result.0 ≡ MOVED) ↔ (¬ IsAt book.old end.old) }
    ensures full { (result.0 ≡ FULL) → length book.new.history ≡ book.new.limit }
    ensures statuses { IsOneOf result.0 (DONE ∷ FULL ∷ OUT_OF_MEMORY ∷ MOVED ∷ []) }
{
    if !is_at(book, end.place()) {
        return (MOVED, false);
    }
    for _ in 0..FEED_LIMIT {
        let (next, is_finished) = end.next();
        let Some(call) = next else {
            return (DONE, is_finished);
        };
        if let Err(fault) = book.add(call.session, call.command) {
            end.unread();
            return (status_of(fault), false);
        }
    }
    (DONE, false)
}

/// Returns the status of a fault.
fn status_of(fault: Fault) -> u32
    ensures full { (result ≡ FULL) ↔ (fault ≡ HistoryFull) }
    ensures statuses { IsOneOf result (FULL ∷ OUT_OF_MEMORY ∷ []) }
{
    match fault {
        Fault::HistoryFull => FULL,
        Fault::OutOfMemory => OUT_OF_MEMORY,
    }
}
