//! A book that is published, and taken back.

ghost use Rattle.std.specs.Prelude.{◌≡◌, ◌≢◌, ◌<◌, ◌+◌, ◌↔◌, ◌∷◌, [], Some, None, true, is_some, IfOk, IfErr, IfSome, IsNone};
ghost use Rattle.lrc_images.specs.Causes.{most_entries};
ghost use Rattle.lrc_embed.specs.Calls.{Of, entry_count};
ghost use Rattle.lrc_embed.specs.Published.{Both, IsAnyOpen, IsAt};
ghost use Rattle.lrc_embed.specs.Statuses.{IsOneOf};

use crate::status::{DONE, FULL, IS_CLOSED, IS_OPEN, OUT_OF_MEMORY};
use crate::{LrcHandle, LrcPublished};
use lrc_book::Book;
use lrc_feed::FeedEnd;
use lrc_images::MOST_ENTRIES;
use std::alloc::Global;

/// Publishes the book of a handle: it goes to the published one, which begins closed, and the handle is closed.
#[unsafe(no_mangle)]
pub extern "C" fn lrc_embed_publish(
    alloc: Global,
    handle: &mut LrcHandle,
    published: &mut LrcPublished,
) -> u32
    ensures done { (result ≡ DONE) → Both published.new.book.owned.book published.new.feed.owned.end
        (λ b e. (handle.old.owned.book ≡ Some b) × (e.calls ≡ []) × (e.known ≡ 0) × IsAt b e) }
    ensures taken { (result ≡ DONE) → handle.new.owned.book ≡ None }
    ensures unchanged { (result ≢ DONE) → (handle.new.owned.book ≡ handle.old.owned.book)
        × (published.new.book.owned.book ≡ published.old.book.owned.book)
        × (published.new.feed.owned.end ≡ published.old.feed.owned.end) }
    ensures open { (result ≡ IS_OPEN) ↔ IsAnyOpen published.old.book.owned.book published.old.feed.owned.end }
    ensures closed { (result ≡ IS_CLOSED) → handle.old.owned.book ≡ None }
    ensures full { (result ≡ FULL) → Of handle.old.owned.book (λ b. most_entries < entry_count b) }
    ensures statuses { IsOneOf result (DONE ∷ IS_CLOSED ∷ IS_OPEN ∷ FULL ∷ OUT_OF_MEMORY ∷ []) }
{
    if published.book.is_open() || published.feed.is_open() {
        return IS_OPEN;
    }
    let Some(book) = handle.take(alloc) else {
        return IS_CLOSED;
    };
    match new_end(alloc, &book) {
        Ok(end) => {
            published.book.put(book);
            published.feed.put(end);
            DONE
        }
        Err(status) => {
            handle.put(book);
            status
        }
    }
}

/// Takes a published book back into a closed handle. Its viewers get no more calls.
#[unsafe(no_mangle)]
pub extern "C" fn lrc_embed_unpublish(
    alloc: Global,
    published: &mut LrcPublished,
    handle: &mut LrcHandle,
) -> u32
    ensures done { (result ≡ DONE) → (handle.new.owned.book ≡ published.old.book.owned.book)
        × (is_some handle.new.owned.book ≡ true) }
    ensures taken { (result ≡ DONE) → (published.new.book.owned.book ≡ None) × (published.new.feed.owned.end ≡ None) }
    ensures unchanged { (result ≢ DONE) → (handle.new.owned.book ≡ handle.old.owned.book)
        × (published.new.book.owned.book ≡ published.old.book.owned.book)
        × (published.new.feed.owned.end ≡ published.old.feed.owned.end) }
    ensures open { (result ≡ IS_OPEN) ↔ (is_some handle.old.owned.book ≡ true) }
    ensures closed { (result ≡ IS_CLOSED) → published.old.book.owned.book ≡ None }
    ensures statuses { IsOneOf result (DONE ∷ IS_CLOSED ∷ IS_OPEN ∷ []) }
{
    if handle.is_open() {
        return IS_OPEN;
    }
    let Some(book) = published.book.take(alloc) else {
        return IS_CLOSED;
    };
    handle.put(book);
    if let Some(end) = published.feed.take(alloc) {
        end.finish();
    }
    DONE
}

/// The end of a new feed, after all entries of the store so far. Else the status.
fn new_end(alloc: Global, book: &Book) -> Result<Box<FeedEnd>, u32>
    ensures value { IfOk result (λ e. (e.value.calls ≡ []) × (e.value.known ≡ 0) × IsAt book.now e.value) }
    ensures full { IfErr result (λ status. (status ≡ FULL) → most_entries < entry_count book.now) }
    ensures statuses { IfErr result (λ status. IsOneOf status (FULL ∷ OUT_OF_MEMORY ∷ [])) }
{
    let Some(place) = place_of(book) else {
        return Err(FULL);
    };
    let Ok(end) = FeedEnd::new(alloc, place) else {
        return Err(OUT_OF_MEMORY);
    };
    match Box::new(alloc, end) {
        Ok(end) => Ok(end),
        Err(_) => Err(OUT_OF_MEMORY),
    }
}

/// The number of entries of the store so far; `None` where no feed can begin after so many.
fn place_of(book: &Book) -> Option<u64>
    ensures value { IfSome result (λ place. place ≡ entry_count book.now) }
    ensures few { IfSome result (λ place. entry_count book.now < most_entries + 1) }
    ensures many { IsNone result → most_entries < entry_count book.now }
{
    let place = book.before().saturating_add(book.history().len() as u64);
    if place > MOST_ENTRIES {
        return None;
    }
    Some(place)
}
