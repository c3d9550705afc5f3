ghost use Rattle.std.specs.Prelude.{◌≡◌, ◌≢◌, ◌<◌, ◌↔◌, ◌++◌, ◌∷◌, [], List, ℕ, true, is_some, None, length, drop};
ghost use Rattle.lrc_book.specs.Books.{IsSpent};
ghost use Rattle.lrc_openings.specs.ImageTexts.{IsTextOfBook};
ghost use Rattle.lrc_embed.specs.Calls.{Of};
ghost use Rattle.lrc_embed.specs.Statuses.{IsOneOf};

use crate::LrcHandle;
use crate::status::{DONE, FULL, IS_CLOSED, OUT_OF_MEMORY, SHORT};
use lrc_book::Book;
use lrc_code::Fault;
use lrc_openings::image_text;
use std::alloc::Global;

/// The image of the book as a text. It fills the first `length` bytes. If there is less room, nothing is written but
/// the `length` that it needs.
#[unsafe(no_mangle)]
pub extern "C" fn lrc_embed_image(
    alloc: Global,
    handle: &mut LrcHandle,
    text: &mut [u8],
    needed: &mut usize,
) -> u32
    ensures same { handle.new.owned.book ≡ handle.old.owned.book }
    ensures done { (result ≡ DONE) → Of handle.old.owned.book (λ b. (image : List ℕ)
        × IsTextOfBook b image × (needed.new ≡ length image)
        × (text.new ≡ image ++ drop (length image) text.old)) }
    ensures short { (result ≡ SHORT) → Of handle.old.owned.book (λ b. (image : List ℕ)
        × IsTextOfBook b image × (needed.new ≡ length image)
        × (length text.old < length image)) }
    ensures full { (result ≢ IS_CLOSED) → Of handle.old.owned.book (λ b. (result ≡ FULL) ↔ IsSpent b) }
    ensures closed { (result ≡ IS_CLOSED) → handle.old.owned.book ≡ None }
    // A closed handle requests no memory.
    ensures memory { (result ≡ OUT_OF_MEMORY) → is_some handle.old.owned.book ≡ true }
    ensures statuses { IsOneOf result (DONE ∷ IS_CLOSED ∷ FULL ∷ OUT_OF_MEMORY ∷ SHORT ∷ []) }
    ensures unwritten { (result ≢ DONE) → text.new ≡ text.old }
    ensures unneeded { (result ≢ DONE) → (result ≢ SHORT) → needed.new ≡ needed.old }
{
    let Some(book) = handle.take(alloc) else {
        return IS_CLOSED;
    };
    let status = write_image(alloc, &book, text, needed);
    handle.put(book);
    status
}

/// Writes the text of the image of a book into the first bytes of a buffer, if it has room for it.
fn write_image(alloc: Global, book: &Book, text: &mut [u8], needed: &mut usize) -> u32
    ensures done { (result ≡ DONE) → (image : List ℕ)
        × IsTextOfBook book.now image × (needed.new ≡ length image)
        × (text.new ≡ image ++ drop (length image) text.old) }
    ensures short { (result ≡ SHORT) → (image : List ℕ)
        × IsTextOfBook book.now image × (needed.new ≡ length image)
        × (length text.old < length image) }
    ensures full { (result ≡ FULL) ↔ IsSpent book.now }
    ensures statuses { IsOneOf result (DONE ∷ FULL ∷ OUT_OF_MEMORY ∷ SHORT ∷ []) }
    ensures unwritten { (result ≢ DONE) → text.new ≡ text.old }
    ensures unneeded { (result ≢ DONE) → (result ≢ SHORT) → needed.new ≡ needed.old }
{
    match image_text(alloc, book) {
        Ok(image) => put_text(&image, text, needed),
        Err(Fault::HistoryFull) => FULL,
        Err(Fault::OutOfMemory) => OUT_OF_MEMORY,
    }
}

/// Writes a text into the first bytes of a buffer, if it has room for it, and the length of the text.
pub(super) fn put_text(image: &[u8], text: &mut [u8], needed: &mut usize) -> u32
    ensures needed { needed.new ≡ length image.now }
    ensures done { (result ≡ DONE) → text.new ≡ image.now ++ drop (length image.now) text.old }
    ensures short { (result ≡ SHORT) → (text.new ≡ text.old) × (length text.old < length image.now) }
    ensures statuses { IsOneOf result (DONE ∷ SHORT ∷ []) }
{
    *needed = image.len();
    if image.len() > text.len() {
        return SHORT;
    }
    text[..image.len()].copy_from_slice(image);
    DONE
}
