//! A call of a published book.

ghost use Rattle.std.specs.Prelude.{◌≡◌, ◌≢◌, ◌⊎◌, ◌↔◌, ◌+◌, ◌∷◌, [], Some, None};
ghost use Rattle.lrc_feed.specs.Feeds.{passed};
ghost use Rattle.lrc_embed.specs.Calls.{contents, IsStepOf, IsNoCall};
ghost use Rattle.lrc_embed.specs.Published.{Both, IsAt, IsEitherFull, IsPassedBy, IsPublishedCall, standing};
ghost use Rattle.lrc_embed.specs.Statuses.{IsOneOf};

use crate::LrcPublished;
use crate::exports::place::is_at;
use crate::status::{DONE, FULL, IS_CLOSED, MOVED, OUT_OF_MEMORY, OUT_OF_RANGE};
use lrc_book::{Book, Command, ReplyRef};
use lrc_code::SessionNo;
use lrc_feed::{FedCall, FeedEnd};
use lrc_records::{LrcCommand, LrcReply};
use std::alloc::Global;

/// Makes one step of a published book, writes its reply, and writes the call to the feed before it returns.
#[unsafe(no_mangle)]
pub extern "C" fn lrc_embed_call_published(
    alloc: Global,
    published: &mut LrcPublished,
    session: u8,
    command: &LrcCommand,
    reply: &mut LrcReply,
) -> u32
    ensures done { (result ≡ DONE) → Both published.old.book.owned.book published.old.feed.owned.end
        (λ b e. Both published.new.book.owned.book published.new.feed.owned.end
        (IsPublishedCall session command.now reply.new b e)) }
    ensures unchanged { (result ≢ DONE)
        → (contents published.new.book.owned.book ≡ contents published.old.book.owned.book)
        × (standing published.new.feed.owned.end ≡ standing published.old.feed.owned.end) }
    ensures moved { (result ≡ MOVED) → Both published.old.book.owned.book published.old.feed.owned.end
        (λ b e. Both published.new.book.owned.book published.new.feed.owned.end (λ _ f. (¬ IsAt b e) ⊎ IsPassedBy e f)) }
    ensures elsewhere { (result ≢ IS_CLOSED) → (result ≢ OUT_OF_RANGE)
        → Both published.old.book.owned.book published.old.feed.owned.end (λ b e. (¬ IsAt b e) → result ≡ MOVED) }
    ensures full { (result ≢ IS_CLOSED) → (result ≢ OUT_OF_RANGE) → (result ≢ MOVED)
        → Both published.old.book.owned.book published.old.feed.owned.end (λ b e. (result ≡ FULL) ↔ IsEitherFull b e) }
    ensures closed { (result ≡ IS_CLOSED)
        → (published.old.book.owned.book ≡ None) ⊎ (published.old.feed.owned.end ≡ None) }
    // A closed one returns this too.
    ensures range { (result ≡ OUT_OF_RANGE) ↔ IsNoCall session command.now }
    ensures statuses { IsOneOf result (DONE ∷ IS_CLOSED ∷ OUT_OF_RANGE ∷ FULL ∷ OUT_OF_MEMORY ∷ MOVED ∷ []) }
    ensures unwritten { (result ≢ DONE) → reply.new ≡ reply.old }
{
    let Some(session) = SessionNo::new(session) else {
        return OUT_OF_RANGE;
    };
    let Some(command) = command.read() else {
        return OUT_OF_RANGE;
    };
    let Some(mut end) = published.feed.take(alloc) else {
        return IS_CLOSED;
    };
    let Some(mut book) = published.book.take(alloc) else {
        published.feed.put(end);
        return IS_CLOSED;
    };
    let status = step_fed(alloc, &mut book, &mut end, session, command, reply);
    published.book.put(book);
    published.feed.put(end);
    status
}

/// Makes one step, writes its reply, and writes the call to the feed. It writes there once nothing can refuse the step.
fn step_fed(
    alloc: Global,
    book: &mut Book,
    end: &mut FeedEnd,
    session: SessionNo,
    command: Command,
    reply: &mut LrcReply,
) -> u32
    ensures done { (result ≡ DONE) → IsStepOf book.old session command reply.new book.new }
    ensures fed { (result ≡ DONE)
        → end.new ≡ record (passed end.old (record { session = session; command = command })) { known = end.old.known + 1 } }
    ensures unchanged { (result ≢ DONE) → contents (Some book.new) ≡ contents (Some book.old) }
    ensures unfed { (result ≢ DONE) → standing (Some end.new) ≡ standing (Some end.old) }
    ensures moved { (result ≡ MOVED) → (¬ IsAt book.old end.old) ⊎ IsPassedBy end.old end.new }
    ensures elsewhere { (¬ IsAt book.old end.old) → result ≡ MOVED }
    ensures full { (result ≢ MOVED) → (result ≡ FULL) ↔ IsEitherFull book.old end.old }
    ensures statuses { IsOneOf result (DONE ∷ FULL ∷ OUT_OF_MEMORY ∷ MOVED ∷ []) }
    ensures unwritten { (result ≢ DONE) → reply.new ≡ reply.old }
{
    if !is_at(book, end.place()) {
        return MOVED;
    }
    if end.is_full() {
        return FULL;
    }
    let Ok(entry) = book.decide(session, command) else {
        return FULL;
    };
    if book.prepare().is_err() || end.reserve(alloc).is_err() {
        return OUT_OF_MEMORY;
    }
    if !end.write(FedCall { session, command }) {
        return MOVED;
    }
    reply.set(&ReplyRef::of(&entry.reply));
    book.commit(entry);
    DONE
}
