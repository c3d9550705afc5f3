ghost use Rattle.std.specs.Prelude.{◌≡◌, ◌≢◌, ◌<◌, ◌∷◌, [], true, is_some, None, option_map, length, map, slice_get};
ghost use Rattle.lrc_book.specs.Books.{state_of};
ghost use Rattle.lrc_rules.specs.Urgency.{risk};
ghost use Rattle.lrc_records.specs.Shown.{encoded_risk};
ghost use Rattle.lrc_walks.specs.WalkRows.{AreFirstRows};
ghost use Rattle.lrc_embed.specs.Calls.{Of, IsLook};
ghost use Rattle.lrc_embed.specs.Statuses.{IsOneOf};

use crate::LrcHandle;
use crate::exports::looks::look;
use crate::status::{DONE, IS_CLOSED, OUT_OF_MEMORY, SHORT};
use lrc_records::LrcRisk;
use lrc_walks::put_risk;
use std::alloc::Global;

/// The stripes that are not whole, with their levels, in the order of repair: by rank, and by number. They fill the
/// first `count` rows. If there are fewer, nothing is written but the `count` that it needs.
#[unsafe(no_mangle)]
pub extern "C" fn lrc_embed_risk(
    alloc: Global,
    handle: &mut LrcHandle,
    rows: &mut [LrcRisk],
    count: &mut usize,
) -> u32
    ensures same { handle.new.owned.book ≡ handle.old.owned.book }
    ensures rows { (result ≡ DONE) → Of handle.old.owned.book (λ b.
        AreFirstRows (map encoded_risk (risk b.nodes (state_of b))) count.new rows.old rows.new) }
    ensures short { (result ≡ SHORT) → Of handle.old.owned.book (λ b.
        (length rows.old < length (risk b.nodes (state_of b))) × (count.new ≡ length (risk b.nodes (state_of b)))) }
    ensures closed { (result ≡ IS_CLOSED) → handle.old.owned.book ≡ None }
    // A closed handle requests no memory.
    ensures memory { (result ≡ OUT_OF_MEMORY) → is_some handle.old.owned.book ≡ true }
    ensures statuses { IsOneOf result (DONE ∷ IS_CLOSED ∷ OUT_OF_MEMORY ∷ SHORT ∷ []) }
    ensures unwritten { (result ≢ DONE) → rows.new ≡ rows.old }
    ensures uncounted { (result ≢ DONE) → (result ≢ SHORT) → count.new ≡ count.old }
{
    let Some(book) = handle.take(alloc) else {
        return IS_CLOSED;
    };
    let risk = book.risk(alloc);
    handle.put(book);
    match risk {
        Ok(risk) => {
            *count = risk.len();
            if risk.len() > rows.len() {
                return SHORT;
            }
            put_risk(risk.as_slice(), rows);
            DONE
        }
        Err(_) => OUT_OF_MEMORY,
    }
}

/// The first row of `lrc_embed_risk`, if a stripe is not whole. It requests no memory.
#[unsafe(no_mangle)]
pub extern "C" fn lrc_embed_first_risk(
    alloc: Global,
    handle: &mut LrcHandle,
    row: &mut LrcRisk,
) -> u32
    ensures { IsLook ⊥ (λ b found. option_map encoded_risk (slice_get (risk b.nodes (state_of b)) 0) ≡ found)
        handle.old.owned.book handle.new.owned.book result row.old row.new }
{
    look(
        alloc,
        handle,
        row,
        |book| Some(LrcRisk::of(book.first_at_risk()?)),
    )
}
