//! What becomes of the stripes if nodes stop or are lost.

ghost use Rattle.std.specs.Prelude.{◌≡◌, ◌≢◌, ◌<◌, ◌↔◌, ◌⊎◌, ◌∷◌, [], true, false, is_some, Some, None, length, map};
ghost use Rattle.lrc_forecast.specs.declared.outlook.Outage.{Outage as AnyOutage};
ghost use Rattle.lrc_forecast.specs.Forecasts.{harms_none};
ghost use Rattle.lrc_records.specs.Shown.{flag};
ghost use Rattle.lrc_walks.specs.Outages.{outage_of, are_nodes, outlooks_of, outlook_row};
ghost use Rattle.lrc_walks.specs.WalkRows.{AreFirstRows};
ghost use Rattle.lrc_embed.specs.Calls.{Of};
ghost use Rattle.lrc_embed.specs.Statuses.{IsOneOf};

use crate::LrcHandle;
use crate::status::{DONE, IS_CLOSED, OUT_OF_MEMORY, OUT_OF_RANGE, SHORT, UNKNOWN};
use lrc_book::Book;
use lrc_forecast::{Outage, is_safe};
use lrc_records::{LrcOutlook, flag};
use lrc_walks::{are_nodes, outage_numbered, outlooks, put_outlooks};
use std::alloc::Global;

/// The stripes that would not be whole if all these nodes went offline (`outage` 1) or were lost (2), in rising order.
/// They fill the first `count` rows. `safe` is 1 if no stripe is harmed, else 0. If there are fewer rows, nothing is
/// written but `safe` and the `count` that it needs.
#[unsafe(no_mangle)]
pub extern "C" fn lrc_embed_forecast(
    alloc: Global,
    handle: &mut LrcHandle,
    outage: u8,
    nodes: &[u16],
    rows: &mut [LrcOutlook],
    count: &mut usize,
    safe: &mut u8,
) -> u32
    ensures same { handle.new.owned.book ≡ handle.old.owned.book }
    ensures rows { (result ≡ DONE) → Of handle.old.owned.book (λ b. (o : AnyOutage)
        × (outage_of outage ≡ Some o)
        × AreFirstRows (map outlook_row (outlooks_of b o nodes.now)) count.new rows.old rows.new) }
    ensures short { (result ≡ SHORT) → Of handle.old.owned.book (λ b. (o : AnyOutage)
        × (outage_of outage ≡ Some o)
        × (count.new ≡ length (outlooks_of b o nodes.now)) × (length rows.old < length (outlooks_of b o nodes.now))) }
    ensures safe { (result ≡ DONE) ⊎ (result ≡ SHORT) → Of handle.old.owned.book (λ b. (o : AnyOutage)
        × (outage_of outage ≡ Some o)
        × (safe.new ≡ flag (harms_none (outlooks_of b o nodes.now)))) }
    ensures unknown { (result ≢ IS_CLOSED) → (result ≢ OUT_OF_RANGE)
        → Of handle.old.owned.book (λ b. (result ≡ UNKNOWN) ↔ (are_nodes b nodes.now ≡ false)) }
    ensures closed { (result ≡ IS_CLOSED) → handle.old.owned.book ≡ None }
    // A closed handle returns this too.
    ensures range { (result ≡ OUT_OF_RANGE) ↔ (outage_of outage ≡ None) }
    // A closed handle requests no memory.
    ensures memory { (result ≡ OUT_OF_MEMORY) → is_some handle.old.owned.book ≡ true }
    ensures statuses { IsOneOf result (DONE ∷ IS_CLOSED ∷ OUT_OF_RANGE ∷ UNKNOWN ∷ OUT_OF_MEMORY ∷ SHORT ∷ []) }
    ensures unwritten { (result ≢ DONE) → rows.new ≡ rows.old }
    ensures uncounted { (result ≢ DONE) → (result ≢ SHORT) → (count.new ≡ count.old) × (safe.new ≡ safe.old) }
{
    let Some(outage) = outage_numbered(outage) else {
        return OUT_OF_RANGE;
    };
    let Some(book) = handle.take(alloc) else {
        return IS_CLOSED;
    };
    let status = put_forecast(alloc, &book, outage, nodes, rows, count, safe);
    handle.put(book);
    status
}

/// Writes what becomes of the stripes of a book, if it has all these nodes.
fn put_forecast(
    alloc: Global,
    book: &Book,
    outage: Outage,
    nodes: &[u16],
    rows: &mut [LrcOutlook],
    count: &mut usize,
    safe: &mut u8,
) -> u32
    ensures rows { (result ≡ DONE)
        → AreFirstRows (map outlook_row (outlooks_of book.now outage nodes.now)) count.new rows.old rows.new }
    ensures short { (result ≡ SHORT) → (count.new ≡ length (outlooks_of book.now outage nodes.now))
        × (length rows.old < length (outlooks_of book.now outage nodes.now)) }
    ensures safe { (result ≡ DONE) ⊎ (result ≡ SHORT)
        → safe.new ≡ flag (harms_none (outlooks_of book.now outage nodes.now)) }
    ensures unknown { (result ≡ UNKNOWN) ↔ (are_nodes book.now nodes.now ≡ false) }
    ensures statuses { IsOneOf result (DONE ∷ UNKNOWN ∷ OUT_OF_MEMORY ∷ SHORT ∷ []) }
    ensures unwritten { (result ≢ DONE) → rows.new ≡ rows.old }
    ensures uncounted { (result ≢ DONE) → (result ≢ SHORT) → (count.new ≡ count.old) × (safe.new ≡ safe.old) }
{
    if !are_nodes(book, nodes) {
        return UNKNOWN;
    }
    match outlooks(alloc, book, outage, nodes) {
        Ok(outlooks) => {
            *safe = flag(is_safe(outlooks.as_slice()));
            *count = outlooks.len();
            if outlooks.len() > rows.len() {
                return SHORT;
            }
            put_outlooks(outlooks.as_slice(), rows);
            DONE
        }
        Err(_) => OUT_OF_MEMORY,
    }
}
