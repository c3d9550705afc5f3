ghost use Rattle.std.specs.Prelude.{◌≡◌, option_map, length, slice_get};
ghost use Rattle.lrc_records.specs.Replies.{encoded_entry};
ghost use Rattle.lrc_embed.specs.Calls.{IsLook, IsReading};

use crate::LrcHandle;
use crate::exports::looks::look;
use crate::status::{DONE, IS_CLOSED};
use lrc_records::LrcEntry;
use lrc_walks::entry_at;
use std::alloc::Global;

/// The number of entries of the history.
#[unsafe(no_mangle)]
pub extern "C" fn lrc_embed_count(alloc: Global, handle: &mut LrcHandle, count: &mut usize) -> u32
    ensures { IsReading (λ b. length b.history) handle.old.owned.book handle.new.owned.book result count.old count.new }
{
    let Some(book) = handle.take(alloc) else {
        return IS_CLOSED;
    };
    *count = book.history().len();
    handle.put(book);
    DONE
}

/// The entry of the history at an index from 0.
#[unsafe(no_mangle)]
pub extern "C" fn lrc_embed_entry(
    alloc: Global,
    handle: &mut LrcHandle,
    index: usize,
    entry: &mut LrcEntry,
) -> u32
    ensures { IsLook ⊥ (λ b found. option_map encoded_entry (slice_get b.history index) ≡ found)
        handle.old.owned.book handle.new.owned.book result entry.old entry.new }
{
    look(
        alloc,
        handle,
        entry,
        |book| Some(LrcEntry::of(&entry_at(book, index)?)),
    )
}
