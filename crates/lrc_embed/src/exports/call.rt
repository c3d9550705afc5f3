ghost use Rattle.std.specs.Prelude.{◌≡◌, ◌≢◌, ◌↔◌, ◌++◌, ◌∷◌, [], List, Some, None, length};
ghost use Rattle.lrc_rules.specs.declared.entry.Entry.{Entry};
ghost use Rattle.lrc_records.specs.Replies.{encoded_reply};
ghost use Rattle.lrc_embed.specs.Calls.{Of, contents, IsCall, IsStepOf, IsPeek, IsReplyOf, IsNoCall};
ghost use Rattle.lrc_embed.specs.Statuses.{IsOneOf};

use crate::LrcHandle;
use crate::status::{DONE, FULL, IS_CLOSED, OUT_OF_MEMORY, OUT_OF_RANGE};
use lrc_book::{Book, Command, ReplyRef};
use lrc_code::{Fault, SessionNo};
use lrc_records::{LrcCommand, LrcReply};
use std::alloc::Global;

/// Makes one step of the book, and writes its reply.
#[unsafe(no_mangle)]
pub extern "C" fn lrc_embed_call(
    alloc: Global,
    handle: &mut LrcHandle,
    session: u8,
    command: &LrcCommand,
    reply: &mut LrcReply,
) -> u32
    ensures done { (result ≡ DONE)
        → Of handle.old.owned.book (λ b. Of handle.new.owned.book (IsCall session command.now reply.new b)) }
    ensures unchanged { (result ≢ DONE) → contents handle.new.owned.book ≡ contents handle.old.owned.book }
    ensures full { (result ≢ IS_CLOSED) → (result ≢ OUT_OF_RANGE)
        → Of handle.old.owned.book (λ b. (result ≡ FULL) ↔ (length b.history ≡ b.limit)) }
    ensures closed { (result ≡ IS_CLOSED) → handle.old.owned.book ≡ None }
    // A closed handle returns this too.
    ensures range { (result ≡ OUT_OF_RANGE) ↔ IsNoCall session command.now }
    ensures statuses { IsOneOf result (DONE ∷ IS_CLOSED ∷ OUT_OF_RANGE ∷ FULL ∷ OUT_OF_MEMORY ∷ []) }
    ensures unwritten { (result ≢ DONE) → reply.new ≡ reply.old }
{
    let Some(session) = SessionNo::new(session) else {
        return OUT_OF_RANGE;
    };
    let Some(command) = command.read() else {
        return OUT_OF_RANGE;
    };
    let Some(mut book) = handle.take(alloc) else {
        return IS_CLOSED;
    };
    let status = step(&mut book, session, command, reply);
    handle.put(book);
    status
}

/// Writes the reply that a call would get now. The book stays as it is, and no memory is requested.
#[unsafe(no_mangle)]
pub extern "C" fn lrc_embed_peek(
    alloc: Global,
    handle: &mut LrcHandle,
    session: u8,
    command: &LrcCommand,
    reply: &mut LrcReply,
) -> u32
    ensures done { (result ≡ DONE) → Of handle.old.owned.book (IsPeek session command.now reply.new) }
    ensures same { handle.new.owned.book ≡ handle.old.owned.book }
    ensures full { (result ≢ IS_CLOSED) → (result ≢ OUT_OF_RANGE)
        → Of handle.old.owned.book (λ b. (result ≡ FULL) ↔ (length b.history ≡ b.limit)) }
    ensures closed { (result ≡ IS_CLOSED) → handle.old.owned.book ≡ None }
    // A closed handle returns this too.
    ensures range { (result ≡ OUT_OF_RANGE) ↔ IsNoCall session command.now }
    // Not `OUT_OF_MEMORY`: a peek requests no memory.
    ensures statuses { IsOneOf result (DONE ∷ IS_CLOSED ∷ OUT_OF_RANGE ∷ FULL ∷ []) }
    ensures unwritten { (result ≢ DONE) → reply.new ≡ reply.old }
{
    let Some(asker) = SessionNo::new(session) else {
        return OUT_OF_RANGE;
    };
    let Some(command) = command.read() else {
        return OUT_OF_RANGE;
    };
    let Some(book) = handle.take(alloc) else {
        return IS_CLOSED;
    };
    let status = decide(&book, asker, command, reply);
    handle.put(book);
    status
}

/// Writes the reply that a call would get.
pub(super) fn decide(book: &Book, session: SessionNo, command: Command, reply: &mut LrcReply) -> u32
    ensures done { (result ≡ DONE) → IsReplyOf book.now session command reply.new }
    ensures full { (result ≡ FULL) ↔ (length book.now.history ≡ book.now.limit) }
    ensures statuses { IsOneOf result (DONE ∷ FULL ∷ []) }
    ensures unwritten { (result ≢ DONE) → reply.new ≡ reply.old }
{
    match book.decide(session, command) {
        Ok(entry) => {
            reply.set(&ReplyRef::of(&entry.reply));
            DONE
        }
        Err(_) => FULL,
    }
}

/// Makes one step, and writes its reply.
pub(super) fn step(
    book: &mut Book,
    session: SessionNo,
    command: Command,
    reply: &mut LrcReply,
) -> u32
    ensures done { (result ≡ DONE) → IsStepOf book.old session command reply.new book.new }
    ensures unchanged { (result ≢ DONE) → contents (Some book.new) ≡ contents (Some book.old) }
    ensures full { (result ≡ FULL) ↔ (length book.old.history ≡ book.old.limit) }
    ensures statuses { IsOneOf result (DONE ∷ FULL ∷ OUT_OF_MEMORY ∷ []) }
    ensures unwritten { (result ≢ DONE) → reply.new ≡ reply.old }
{
    match book.add(session, command) {
        Ok(_) => {
            write_last_reply(book, reply);
            DONE
        }
        Err(Fault::HistoryFull) => FULL,
        Err(Fault::OutOfMemory) => OUT_OF_MEMORY,
    }
}

/// Writes the reply of the last entry.
fn write_last_reply(book: &Book, reply: &mut LrcReply)
    ensures { (past : List Entry) (e : Entry) → book.now.history ≡ past ++ e ∷ [] → reply.new ≡ encoded_reply e.reply }
{
    if let Some(record) = book.history().last() {
        reply.set(&record.reply_ref());
    }
}
