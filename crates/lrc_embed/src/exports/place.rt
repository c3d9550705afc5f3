//! A call that is made only where its caller knows all entries before it.

ghost use Rattle.std.specs.Prelude.{◌≡◌, ◌≢◌, ◌↔◌, ◌∷◌, [], true, Some, None, length};
ghost use Rattle.lrc_embed.specs.Calls.{Of, contents, IsCall, IsStepOf, entry_count, IsNoCall};
ghost use Rattle.lrc_embed.specs.Statuses.{IsOneOf};

use crate::LrcHandle;
use crate::exports::call::step;
use crate::status::{DONE, FULL, IS_CLOSED, MOVED, OUT_OF_MEMORY, OUT_OF_RANGE};
use lrc_book::{Book, Command};
use lrc_code::SessionNo;
use lrc_records::{LrcCommand, LrcReply};
use std::alloc::Global;

/// Makes one step of the book, and writes its reply, if the store has made `place` entries so far.
#[unsafe(no_mangle)]
pub extern "C" fn lrc_embed_call_at(
    alloc: Global,
    handle: &mut LrcHandle,
    place: u64,
    session: u8,
    command: &LrcCommand,
    reply: &mut LrcReply,
) -> u32
    ensures done { (result ≡ DONE)
        → Of handle.old.owned.book (λ b. Of handle.new.owned.book (IsCall session command.now reply.new b)) }
    ensures unchanged { (result ≢ DONE) → contents handle.new.owned.book ≡ contents handle.old.owned.book }
    ensures moved { (result ≢ IS_CLOSED) → (result ≢ OUT_OF_RANGE)
        → Of handle.old.owned.book (λ b. (result ≡ MOVED) ↔ (entry_count b ≢ place)) }
    ensures full { (result ≢ IS_CLOSED) → (result ≢ OUT_OF_RANGE) → (result ≢ MOVED)
        → Of handle.old.owned.book (λ b. (result ≡ FULL) ↔ (length b.history ≡ b.limit)) }
    ensures closed { (result ≡ IS_CLOSED) → handle.old.owned.book ≡ None }
    // A closed handle returns this too.
    ensures range { (result ≡ OUT_OF_RANGE) ↔ IsNoCall session command.now }
    ensures statuses { IsOneOf result (DONE ∷ IS_CLOSED ∷ OUT_OF_RANGE ∷ FULL ∷ OUT_OF_MEMORY ∷ MOVED ∷ []) }
    ensures unwritten { (result ≢ DONE) → reply.new ≡ reply.old }
{
    let Some(session) = SessionNo::new(session) else {
        return OUT_OF_RANGE;
    };
    let Some(command) = command.read() else {
        return OUT_OF_RANGE;
    };
    let Some(mut book) = handle.take(alloc) else {
        return IS_CLOSED;
    };
    let status = step_at(&mut book, place, session, command, reply);
    handle.put(book);
    status
}

/// Makes one step, and writes its reply, if the store has made `place` entries so far.
fn step_at(
    book: &mut Book,
    place: u64,
    session: SessionNo,
    command: Command,
    reply: &mut LrcReply,
) -> u32
    ensures done { (result ≡ DONE) → IsStepOf book.old session command reply.new book.new }
    ensures unchanged { (result ≢ DONE) → contents (Some book.new) ≡ contents (Some book.old) }
    ensures moved { (result ≡ MOVED) ↔ (entry_count book.old ≢ place) }
    ensures full { (result ≢ MOVED) → (result ≡ FULL) ↔ (length book.old.history ≡ book.old.limit) }
    ensures statuses { IsOneOf result (DONE ∷ FULL ∷ OUT_OF_MEMORY ∷ MOVED ∷ []) }
    ensures unwritten { (result ≢ DONE) → reply.new ≡ reply.old }
{
    if !is_at(book, place) {
        return MOVED;
    }
    step(book, session, command, reply)
}

/// Whether the store has made `place` entries so far. Nothing is added here, so no sum can be too large.
pub(super) fn is_at(book: &Book, place: u64) -> bool
    ensures { (result ≡ true) ↔ (entry_count book.now ≡ place) }
{
    let before = book.before();
    place >= before && place - before == book.history().len() as u64
}
