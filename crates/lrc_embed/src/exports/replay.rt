ghost use Rattle.std.specs.Prelude.{◌≡◌, ◌≢◌, ◌⊎◌, ◌∷◌, [], None};
ghost use Rattle.lrc_embed.specs.Calls.{Of};
ghost use Rattle.lrc_embed.specs.Replays.{IsReplay, IsRepeat, StopsAt, IsUnreadable, IsFull, IsCallable, IsDifferent};
ghost use Rattle.lrc_embed.specs.Statuses.{IsOneOf};

use crate::LrcHandle;
use crate::status::{DIFFERENT, DONE, FULL, IS_CLOSED, OUT_OF_MEMORY, OUT_OF_RANGE};
use lrc_book::Book;
use lrc_code::{Fault, SessionNo};
use lrc_records::LrcEntry;
use std::alloc::Global;

/// Repeats the calls of saved entries after the history that the book has, and compares each reply. If one cannot be
/// made or has another reply, the handle is closed, and `position` is that of the entry, from 0.
#[unsafe(no_mangle)]
pub extern "C" fn lrc_embed_replay(
    alloc: Global,
    handle: &mut LrcHandle,
    entries: &[LrcEntry],
    position: &mut usize,
) -> u32
    ensures done { (result ≡ DONE) → Of handle.old.owned.book (λ b. Of handle.new.owned.book (IsReplay entries.now b)) }
    ensures shut { (result ≢ DONE) → handle.new.owned.book ≡ None }
    ensures closed { (result ≡ IS_CLOSED) → handle.old.owned.book ≡ None }
    ensures range { (result ≡ OUT_OF_RANGE) → Of handle.old.owned.book (StopsAt IsUnreadable entries.now position.new) }
    ensures full { (result ≡ FULL) → Of handle.old.owned.book (StopsAt IsFull entries.now position.new) }
    ensures memory { (result ≡ OUT_OF_MEMORY) → Of handle.old.owned.book (StopsAt IsCallable entries.now position.new) }
    ensures different { (result ≡ DIFFERENT) → Of handle.old.owned.book (StopsAt IsDifferent entries.now position.new) }
    ensures statuses { IsOneOf result (DONE ∷ IS_CLOSED ∷ OUT_OF_RANGE ∷ FULL ∷ OUT_OF_MEMORY ∷ DIFFERENT ∷ []) }
    ensures unwritten { (result ≡ DONE) ⊎ (result ≡ IS_CLOSED) → position.new ≡ position.old }
{
    let Some(mut book) = handle.take(alloc) else {
        return IS_CLOSED;
    };
    for (i, entry) in entries.iter().enumerate() {
        let status = repeat(&mut book, entry);
        if status != DONE {
            *position = i;
            Box::into_inner(book).close();
            return status;
        }
    }
    handle.put(book);
    DONE
}

/// Repeats the call of an entry, and compares its reply.
fn repeat(book: &mut Book, entry: &LrcEntry) -> u32
    ensures done { (result ≡ DONE) → IsRepeat entry.now book.old book.new }
    ensures range { (result ≡ OUT_OF_RANGE) → IsUnreadable entry.now book.old }
    ensures full { (result ≡ FULL) → IsFull entry.now book.old }
    ensures memory { (result ≡ OUT_OF_MEMORY) → IsCallable entry.now book.old }
    ensures different { (result ≡ DIFFERENT) → IsDifferent entry.now book.old }
    ensures statuses { IsOneOf result (DONE ∷ OUT_OF_RANGE ∷ FULL ∷ OUT_OF_MEMORY ∷ DIFFERENT ∷ []) }
{
    let Some(session) = SessionNo::new(entry.session) else {
        return OUT_OF_RANGE;
    };
    let Some(command) = entry.command.read() else {
        return OUT_OF_RANGE;
    };
    match book.call(session, command) {
        Ok(reply) if entry.reply.is_of(&reply) => DONE,
        Ok(_) => DIFFERENT,
        Err(Fault::HistoryFull) => FULL,
        Err(Fault::OutOfMemory) => OUT_OF_MEMORY,
    }
}
