//! A call that also writes the fragments whose home or lease is another one after it.

ghost use Rattle.std.specs.Prelude.{◌≡◌, ◌≢◌, ◌↔◌, ◌∷◌, [], Some, None, length};
ghost use Rattle.lrc_book.specs.Books.{state_of};
ghost use Rattle.lrc_walks.specs.WalkRows.{AreFirstRows};
ghost use Rattle.lrc_changes.specs.Changes.{changes};
ghost use Rattle.lrc_embed.specs.Calls.{Of, contents, IsStepOf, IsNoCall};
ghost use Rattle.lrc_embed.specs.Entries.{IsCallEntry, HasCall};
ghost use Rattle.lrc_embed.specs.Changed.{HasNoRoom, IsShortCall};
ghost use Rattle.lrc_embed.specs.Statuses.{IsOneOf};

use crate::LrcHandle;
use crate::status::{DONE, FULL, IS_CLOSED, OUT_OF_MEMORY, OUT_OF_RANGE, SHORT};
use lrc_book::{Book, Command};
use lrc_changes::{LrcChange, changed_by, put_changes};
use lrc_code::SessionNo;
use lrc_records::{LrcCommand, LrcEntry};
use std::alloc::Global;

/// Makes one step of the book, and writes its entry, with a row for each fragment whose home or lease is another one
/// after it, in rising order of stripe and fragment. They fill the first `count` rows. If there are fewer rows, the
/// step is not made, and nothing is written but the `count` that it needs.
#[unsafe(no_mangle)]
pub extern "C" fn lrc_embed_call_changes(
    alloc: Global,
    handle: &mut LrcHandle,
    session: u8,
    command: &LrcCommand,
    entry: &mut LrcEntry,
    rows: &mut [LrcChange],
    count: &mut usize,
) -> u32
    ensures done { (result ≡ DONE)
        → Of handle.old.owned.book (λ b. Of handle.new.owned.book (IsCallEntry session command.now entry.new b)) }
    ensures rows { (result ≡ DONE) → Of handle.old.owned.book (λ b. Of handle.new.owned.book (λ after.
        AreFirstRows (changes (state_of b) (state_of after)) count.new rows.old rows.new)) }
    ensures short { (result ≡ SHORT)
        → Of handle.old.owned.book (IsShortCall session command.now (length rows.old) count.new) }
    ensures unchanged { (result ≢ DONE) → contents handle.new.owned.book ≡ contents handle.old.owned.book }
    ensures full { (result ≢ IS_CLOSED) → (result ≢ OUT_OF_RANGE)
        → Of handle.old.owned.book (λ b. (result ≡ FULL) ↔ (length b.history ≡ b.limit)) }
    ensures closed { (result ≡ IS_CLOSED) → handle.old.owned.book ≡ None }
    // A closed handle returns this too.
    ensures range { (result ≡ OUT_OF_RANGE) ↔ IsNoCall session command.now }
    ensures statuses { IsOneOf result (DONE ∷ IS_CLOSED ∷ OUT_OF_RANGE ∷ FULL ∷ OUT_OF_MEMORY ∷ SHORT ∷ []) }
    ensures unwritten { (result ≢ DONE) → (entry.new ≡ entry.old) × (rows.new ≡ rows.old) }
    ensures uncounted { (result ≢ DONE) → (result ≢ SHORT) → count.new ≡ count.old }
{
    let Some(session) = SessionNo::new(session) else {
        return OUT_OF_RANGE;
    };
    let Some(command) = command.read() else {
        return OUT_OF_RANGE;
    };
    let Some(mut book) = handle.take(alloc) else {
        return IS_CLOSED;
    };
    let status = step_with_changes(alloc, &mut book, session, command, entry, rows, count);
    handle.put(book);
    status
}

/// Makes one step, and writes its entry and the rows of the fragments whose home or lease is another one.
fn step_with_changes(
    alloc: Global,
    book: &mut Book,
    session: SessionNo,
    command: Command,
    entry: &mut LrcEntry,
    rows: &mut [LrcChange],
    count: &mut usize,
) -> u32
    ensures done { (result ≡ DONE) → IsStepOf book.old session command entry.new.reply book.new }
    ensures head { (result ≡ DONE) → HasCall session command entry.new }
    ensures rows { (result ≡ DONE)
        → AreFirstRows (changes (state_of book.old) (state_of book.new)) count.new rows.old rows.new }
    ensures short { (result ≡ SHORT) → HasNoRoom book.old session command (length rows.old) count.new }
    ensures unchanged { (result ≢ DONE) → contents (Some book.new) ≡ contents (Some book.old) }
    ensures full { (result ≡ FULL) ↔ (length book.old.history ≡ book.old.limit) }
    ensures statuses { IsOneOf result (DONE ∷ FULL ∷ OUT_OF_MEMORY ∷ SHORT ∷ []) }
    ensures unwritten { (result ≢ DONE) → (entry.new ≡ entry.old) × (rows.new ≡ rows.old) }
    ensures uncounted { (result ≢ DONE) → (result ≢ SHORT) → count.new ≡ count.old }
{
    let Ok(made) = book.decide(session, command) else {
        return FULL;
    };
    let Ok(formers) = changed_by(alloc, book, &made) else {
        return OUT_OF_MEMORY;
    };
    if formers.len() > rows.len() {
        *count = formers.len();
        return SHORT;
    }
    if book.prepare().is_err() {
        return OUT_OF_MEMORY;
    }
    book.commit(made);
    put_changes(book, formers.as_slice(), rows);
    *count = formers.len();
    *entry = LrcEntry::of(&made);
    DONE
}
