//! Calls that write their entry.

ghost use Rattle.std.specs.Prelude.{◌≡◌, ◌≢◌, ◌↔◌, ◌∷◌, [], Some, None, length};
ghost use Rattle.lrc_embed.specs.Calls.{Of, contents, IsStepOf, IsReplyOf, IsNoCall};
ghost use Rattle.lrc_embed.specs.Entries.{IsCallEntry, IsPeekEntry, HasCall};
ghost use Rattle.lrc_embed.specs.Statuses.{IsOneOf};

use crate::LrcHandle;
use crate::exports::call::{decide, step};
use crate::status::{DONE, FULL, IS_CLOSED, OUT_OF_MEMORY, OUT_OF_RANGE};
use lrc_book::{Book, Command};
use lrc_code::SessionNo;
use lrc_records::{LrcCommand, LrcEntry};
use std::alloc::Global;

/// Makes one step of the book, and writes its entry.
#[unsafe(no_mangle)]
pub extern "C" fn lrc_embed_call_entry(
    alloc: Global,
    handle: &mut LrcHandle,
    session: u8,
    command: &LrcCommand,
    entry: &mut LrcEntry,
) -> u32
    ensures done { (result ≡ DONE)
        → Of handle.old.owned.book (λ b. Of handle.new.owned.book (IsCallEntry session command.now entry.new b)) }
    ensures unchanged { (result ≢ DONE) → contents handle.new.owned.book ≡ contents handle.old.owned.book }
    ensures full { (result ≢ IS_CLOSED) → (result ≢ OUT_OF_RANGE)
        → Of handle.old.owned.book (λ b. (result ≡ FULL) ↔ (length b.history ≡ b.limit)) }
    ensures closed { (result ≡ IS_CLOSED) → handle.old.owned.book ≡ None }
    // A closed handle returns this too.
    ensures range { (result ≡ OUT_OF_RANGE) ↔ IsNoCall session command.now }
    ensures statuses { IsOneOf result (DONE ∷ IS_CLOSED ∷ OUT_OF_RANGE ∷ FULL ∷ OUT_OF_MEMORY ∷ []) }
    ensures unwritten { (result ≢ DONE) → entry.new ≡ entry.old }
{
    let Some(session) = SessionNo::new(session) else {
        return OUT_OF_RANGE;
    };
    let Some(command) = command.read() else {
        return OUT_OF_RANGE;
    };
    let Some(mut book) = handle.take(alloc) else {
        return IS_CLOSED;
    };
    let status = step_entry(&mut book, session, command, entry);
    handle.put(book);
    status
}

/// Writes the entry that a call would make now. The book stays as it is, and no memory is requested.
#[unsafe(no_mangle)]
pub extern "C" fn lrc_embed_peek_entry(
    alloc: Global,
    handle: &mut LrcHandle,
    session: u8,
    command: &LrcCommand,
    entry: &mut LrcEntry,
) -> u32
    ensures done { (result ≡ DONE) → Of handle.old.owned.book (IsPeekEntry session command.now entry.new) }
    ensures same { handle.new.owned.book ≡ handle.old.owned.book }
    ensures full { (result ≢ IS_CLOSED) → (result ≢ OUT_OF_RANGE)
        → Of handle.old.owned.book (λ b. (result ≡ FULL) ↔ (length b.history ≡ b.limit)) }
    ensures closed { (result ≡ IS_CLOSED) → handle.old.owned.book ≡ None }
    // A closed handle returns this too.
    ensures range { (result ≡ OUT_OF_RANGE) ↔ IsNoCall session command.now }
    // Not `OUT_OF_MEMORY`: a peek requests no memory.
    ensures statuses { IsOneOf result (DONE ∷ IS_CLOSED ∷ OUT_OF_RANGE ∷ FULL ∷ []) }
    ensures unwritten { (result ≢ DONE) → entry.new ≡ entry.old }
{
    let Some(asker) = SessionNo::new(session) else {
        return OUT_OF_RANGE;
    };
    let Some(command) = command.read() else {
        return OUT_OF_RANGE;
    };
    let Some(book) = handle.take(alloc) else {
        return IS_CLOSED;
    };
    let status = decide_entry(&book, asker, command, entry);
    handle.put(book);
    status
}

/// Makes one step, and writes its entry.
pub(super) fn step_entry(
    book: &mut Book,
    session: SessionNo,
    command: Command,
    entry: &mut LrcEntry,
) -> u32
    ensures done { (result ≡ DONE) → IsStepOf book.old session command entry.new.reply book.new }
    ensures head { (result ≡ DONE) → HasCall session command entry.new }
    ensures unchanged { (result ≢ DONE) → contents (Some book.new) ≡ contents (Some book.old) }
    ensures full { (result ≡ FULL) ↔ (length book.old.history ≡ book.old.limit) }
    ensures statuses { IsOneOf result (DONE ∷ FULL ∷ OUT_OF_MEMORY ∷ []) }
    ensures unwritten { (result ≢ DONE) → entry.new ≡ entry.old }
{
    let status = step(book, session, command, &mut entry.reply);
    if status == DONE {
        write_head(session, command, entry);
    }
    status
}

/// Writes the entry that a call would make.
fn decide_entry(book: &Book, session: SessionNo, command: Command, entry: &mut LrcEntry) -> u32
    ensures done { (result ≡ DONE) → IsReplyOf book.now session command entry.new.reply }
    ensures head { (result ≡ DONE) → HasCall session command entry.new }
    ensures full { (result ≡ FULL) ↔ (length book.now.history ≡ book.now.limit) }
    ensures statuses { IsOneOf result (DONE ∷ FULL ∷ []) }
    ensures unwritten { (result ≢ DONE) → entry.new ≡ entry.old }
{
    let status = decide(book, session, command, &mut entry.reply);
    if status == DONE {
        write_head(session, command, entry);
    }
    status
}

/// Writes what an entry has before its reply.
fn write_head(session: SessionNo, command: Command, entry: &mut LrcEntry)
    ensures head { HasCall session command entry.new }
    ensures reply { entry.new.reply ≡ entry.old.reply }
{
    entry.session = session.value;
    entry.reserved = [0; 3];
    entry.command = LrcCommand::of(command);
}
