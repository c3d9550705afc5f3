ghost use Rattle.std.specs.Prelude.{◌≡◌, ◌≢◌, ◌↔◌, ◌∷◌, [], Some, None};
ghost use Rattle.lrc_book.specs.Books.{IsSpent};
ghost use Rattle.lrc_embed.specs.Calls.{Of, contents, IsForgotten, IsReading};
ghost use Rattle.lrc_embed.specs.Statuses.{IsOneOf};

use crate::LrcHandle;
use crate::status::{DONE, FULL, IS_CLOSED, OUT_OF_MEMORY};
use lrc_book::Book;
use lrc_code::Fault;
use std::alloc::Global;

/// Forgets the entries: the history is empty then. All looks but those at the history return what they returned before.
#[unsafe(no_mangle)]
pub extern "C" fn lrc_embed_forget(alloc: Global, handle: &mut LrcHandle) -> u32
    ensures done { (result ≡ DONE) → Of handle.old.owned.book (λ b. Of handle.new.owned.book (IsForgotten b)) }
    ensures unchanged { (result ≢ DONE) → contents handle.new.owned.book ≡ contents handle.old.owned.book }
    ensures full { (result ≢ IS_CLOSED) → Of handle.old.owned.book (λ b. (result ≡ FULL) ↔ IsSpent b) }
    ensures closed { (result ≡ IS_CLOSED) → handle.old.owned.book ≡ None }
    ensures statuses { IsOneOf result (DONE ∷ IS_CLOSED ∷ FULL ∷ OUT_OF_MEMORY ∷ []) }
{
    let Some(mut book) = handle.take(alloc) else {
        return IS_CLOSED;
    };
    let status = forget(&mut book);
    handle.put(book);
    status
}

/// Forgets the entries of a book.
fn forget(book: &mut Book) -> u32
    ensures done { (result ≡ DONE) → IsForgotten book.old book.new }
    ensures unchanged { (result ≢ DONE) → contents (Some book.new) ≡ contents (Some book.old) }
    ensures full { (result ≡ FULL) ↔ IsSpent book.old }
    ensures statuses { IsOneOf result (DONE ∷ FULL ∷ OUT_OF_MEMORY ∷ []) }
{
    match book.forget() {
        Ok(_) => DONE,
        Err(Fault::HistoryFull) => FULL,
        Err(Fault::OutOfMemory) => OUT_OF_MEMORY,
    }
}

/// The number of entries of the store before those of the history: those before the image that the book began in, and
/// those that were forgotten.
#[unsafe(no_mangle)]
pub extern "C" fn lrc_embed_before(alloc: Global, handle: &mut LrcHandle, before: &mut u64) -> u32
    ensures { IsReading (λ b. b.before) handle.old.owned.book handle.new.owned.book result before.old before.new }
{
    let Some(book) = handle.take(alloc) else {
        return IS_CLOSED;
    };
    *before = book.before();
    handle.put(book);
    DONE
}
