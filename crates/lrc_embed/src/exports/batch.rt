//! Several calls, one after the other.

ghost use Rattle.std.specs.Prelude.{◌≡◌, ◌≢◌, ◌∷◌, [], Some, None, length};
ghost use Rattle.lrc_embed.specs.Calls.{Of, contents};
ghost use Rattle.lrc_embed.specs.Entries.{IsCallEntry};
ghost use Rattle.lrc_embed.specs.Replays.{IsUnreadable, IsFull, IsCallable};
ghost use Rattle.lrc_embed.specs.Batches.{AreMade, StopsBefore};
ghost use Rattle.lrc_embed.specs.Statuses.{IsOneOf};

use crate::LrcHandle;
use crate::exports::entries::step_entry;
use crate::status::{DONE, FULL, IS_CLOSED, OUT_OF_MEMORY, OUT_OF_RANGE};
use lrc_book::Book;
use lrc_code::SessionNo;
use lrc_records::LrcEntry;
use std::alloc::Global;

/// Makes the calls of these sessions and commands one after the other, and writes the entry of each in its place. If one
/// cannot be made, those before it stay: `made` is their number, and the status is that of the next one.
#[unsafe(no_mangle)]
pub extern "C" fn lrc_embed_calls(
    alloc: Global,
    handle: &mut LrcHandle,
    entries: &mut [LrcEntry],
    made: &mut usize,
) -> u32
    ensures made { (result ≢ IS_CLOSED) → Of handle.old.owned.book (λ b. Of handle.new.owned.book
        (AreMade made.new entries.old entries.new b)) }
    ensures done { (result ≡ DONE) → made.new ≡ length entries.old }
    ensures range { (result ≡ OUT_OF_RANGE) → Of handle.new.owned.book (StopsBefore IsUnreadable entries.old made.new) }
    ensures full { (result ≡ FULL) → Of handle.new.owned.book (StopsBefore IsFull entries.old made.new) }
    ensures memory { (result ≡ OUT_OF_MEMORY) → Of handle.new.owned.book (StopsBefore IsCallable entries.old made.new) }
    ensures closed { (result ≡ IS_CLOSED) → (handle.old.owned.book ≡ None) × (handle.new.owned.book ≡ None) }
    ensures statuses { IsOneOf result (DONE ∷ IS_CLOSED ∷ OUT_OF_RANGE ∷ FULL ∷ OUT_OF_MEMORY ∷ []) }
    ensures unwritten { (result ≡ IS_CLOSED) → (entries.new ≡ entries.old) × (made.new ≡ made.old) }
{
    let Some(mut book) = handle.take(alloc) else {
        return IS_CLOSED;
    };
    let status = make_calls(&mut book, entries, made);
    handle.put(book);
    status
}

/// Makes the calls, as far as they can be made.
fn make_calls(book: &mut Book, entries: &mut [LrcEntry], made: &mut usize) -> u32
    ensures made { AreMade made.new entries.old entries.new book.old book.new }
    ensures done { (result ≡ DONE) → made.new ≡ length entries.old }
    ensures range { (result ≡ OUT_OF_RANGE) → StopsBefore IsUnreadable entries.old made.new book.new }
    ensures full { (result ≡ FULL) → StopsBefore IsFull entries.old made.new book.new }
    ensures memory { (result ≡ OUT_OF_MEMORY) → StopsBefore IsCallable entries.old made.new book.new }
    ensures statuses { IsOneOf result (DONE ∷ OUT_OF_RANGE ∷ FULL ∷ OUT_OF_MEMORY ∷ []) }
{
    for i in 0..entries.len() {
        let status = make_call(book, &mut entries[i]);
        if status != DONE {
            *made = i;
            return status;
        }
    }
    *made = entries.len();
    DONE
}

/// Makes the call of a session and a command, and writes its entry.
fn make_call(book: &mut Book, entry: &mut LrcEntry) -> u32
    ensures done { (result ≡ DONE) → IsCallEntry entry.old.session entry.old.command entry.new book.old book.new }
    ensures unchanged { (result ≢ DONE) → contents (Some book.new) ≡ contents (Some book.old) }
    ensures range { (result ≡ OUT_OF_RANGE) → IsUnreadable entry.old book.new }
    ensures full { (result ≡ FULL) → IsFull entry.old book.new }
    ensures memory { (result ≡ OUT_OF_MEMORY) → IsCallable entry.old book.new }
    ensures statuses { IsOneOf result (DONE ∷ OUT_OF_RANGE ∷ FULL ∷ OUT_OF_MEMORY ∷ []) }
    ensures unwritten { (result ≢ DONE) → entry.new ≡ entry.old }
{
    let Some(session) = SessionNo::new(entry.session) else {
        return OUT_OF_RANGE;
    };
    let Some(command) = entry.command.read() else {
        return OUT_OF_RANGE;
    };
    step_entry(book, session, command, entry)
}
