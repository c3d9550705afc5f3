ghost use Rattle.std.specs.Prelude.{◌↔◌, IfOk, IsErrOf};
ghost use Rattle.lrc_code.specs.declared.fault.Fault.TheVariants as fault;
ghost use Rattle.lrc_book.specs.Books.{IsSpent};
ghost use Rattle.lrc_openings.specs.ImageTexts.{IsTextOfBook};

use lrc_book::Book;
use lrc_code::Fault;
use lrc_image_text::push_image;
use std::alloc::Global;

/// The text of the image of a book.
pub fn image_text(alloc: Global, book: &Book) -> Result<Vec<u8>, Fault>
    ensures value { IfOk result (λ text. IsTextOfBook book.now text.items) }
    ensures full { IsErrOf result fault.HistoryFull ↔ IsSpent book.now }
{
    let image = book.image(alloc)?;
    let mut text = Vec::new(alloc);
    push_image(&mut text, &image)?;
    Ok(text)
}
