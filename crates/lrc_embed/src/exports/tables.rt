//! The texts of a book: its tables, that of a forecast, and the lines of its replies.

ghost use Rattle.std.specs.Prelude.{◌≡◌, ◌≢◌, ◌↔◌, ◌⊎◌, ◌+◌, ◌<◌, ◌∷◌, [], true, false, is_some, Some, None, IfOk};
ghost use Rattle.std.specs.Prelude.{length, slice_get};
ghost use Rattle.lrc_forecast.specs.declared.outlook.Outage.{Outage as AnyOutage};
ghost use Rattle.lrc_forecast.specs.Forecasts.{harms_none};
ghost use Rattle.lrc_rules.specs.declared.entry.Entry.{Entry};
ghost use Rattle.lrc_records.specs.Shown.{flag};
ghost use Rattle.lrc_show.specs.declared.view.View.{View as AnyView};
ghost use Rattle.lrc_show.specs.Shown.{forecast_text};
ghost use Rattle.lrc_text.specs.Texts.{reply_line};
ghost use Rattle.lrc_walks.specs.Outages.{outage_of, are_nodes, outlooks_of};
ghost use Rattle.lrc_embed.specs.Calls.{Of};
ghost use Rattle.lrc_embed.specs.Statuses.{IsOneOf};
ghost use Rattle.lrc_embed.specs.Printed.{IsTextPut, IsTooLong, view_of, shown_of, IsReplyLine};

use crate::LrcHandle;
use crate::exports::image::put_text;
use crate::status::{DONE, FULL, IS_CLOSED, OUT_OF_MEMORY, OUT_OF_RANGE, SHORT, UNKNOWN};
use lrc_book::{Book, Record};
use lrc_forecast::{Outage, is_safe};
use lrc_records::flag;
use lrc_show::{DomainKind, View, shown, shown_forecast};
use lrc_text::{LINE_ROOM, push_lines};
use lrc_walks::{are_nodes, outage_numbered, outlooks};
use std::alloc::{AllocError, Global};

/// The most entries before the history for which lines have numbers. No image tells more.
const MOST_BEFORE: u64 = 9_223_372_036_854_775_808;

/// The numbers of lines are below this.
const MOST_NUMBER: usize = 9_223_372_036_856_000_000;

/// A table of the book: 1 is its status, 2 its stripes, 3 its nodes, 4 its leases, 5 its work, 6 its fragments, 7 its fault
/// domains, 8 its upgrade domains, 9 its health, and 10 its capacity. It fills the first `length` bytes. If there is less
/// room, nothing is written but the `length` that it needs.
#[unsafe(no_mangle)]
pub extern "C" fn lrc_embed_show(
    alloc: Global,
    handle: &mut LrcHandle,
    view: u8,
    text: &mut [u8],
    length: &mut usize,
) -> u32
    ensures same { handle.new.owned.book ≡ handle.old.owned.book }
    ensures done { (result ≡ DONE) → Of handle.old.owned.book (λ b. (v : AnyView)
        × (view_of view ≡ Some v) × IsTextPut (shown_of b v) text.old text.new length.new) }
    ensures short { (result ≡ SHORT) → Of handle.old.owned.book (λ b. (v : AnyView)
        × (view_of view ≡ Some v) × IsTooLong (shown_of b v) text.old length.new) }
    ensures closed { (result ≡ IS_CLOSED) → handle.old.owned.book ≡ None }
    // A closed handle returns this too.
    ensures range { (result ≡ OUT_OF_RANGE) ↔ (view_of view ≡ None) }
    // A closed handle requests no memory.
    ensures memory { (result ≡ OUT_OF_MEMORY) → is_some handle.old.owned.book ≡ true }
    ensures statuses { IsOneOf result (DONE ∷ IS_CLOSED ∷ OUT_OF_RANGE ∷ OUT_OF_MEMORY ∷ SHORT ∷ []) }
    ensures unwritten { (result ≢ DONE) → text.new ≡ text.old }
    ensures unneeded { (result ≢ DONE) → (result ≢ SHORT) → length.new ≡ length.old }
{
    let Some(view) = view_numbered(view) else {
        return OUT_OF_RANGE;
    };
    let Some(book) = handle.take(alloc) else {
        return IS_CLOSED;
    };
    let status = put_view(alloc, &book, view, text, length);
    handle.put(book);
    status
}

/// The table of a number.
fn view_numbered(number: u8) -> Option<View>
    ensures { result ≡ view_of number }
{
    match number {
        1 => Some(View::Status),
        2 => Some(View::Stripes),
        3 => Some(View::Nodes),
        4 => Some(View::Leases),
        5 => Some(View::Work),
        6 => Some(View::Fragments),
        7 => Some(View::Domains(DomainKind::Fault)),
        8 => Some(View::Domains(DomainKind::Upgrade)),
        9 => Some(View::Health),
        10 => Some(View::Capacity),
        _ => None,
    }
}

/// Writes a table of a book into the first bytes of a buffer, if it has room for it.
fn put_view(alloc: Global, book: &Book, view: View, text: &mut [u8], length: &mut usize) -> u32
    ensures done { (result ≡ DONE) → IsTextPut (shown_of book.now view) text.old text.new length.new }
    ensures short { (result ≡ SHORT) → IsTooLong (shown_of book.now view) text.old length.new }
    ensures statuses { IsOneOf result (DONE ∷ OUT_OF_MEMORY ∷ SHORT ∷ []) }
    ensures unwritten { (result ≢ DONE) → text.new ≡ text.old }
    ensures unneeded { (result ≢ DONE) → (result ≢ SHORT) → length.new ≡ length.old }
{
    match shown(alloc, book, view) {
        Ok(table) => put_text(table.as_slice(), text, length),
        Err(_) => OUT_OF_MEMORY,
    }
}

/// The table of what would become of the stripes if all these nodes went offline (`outage` 1) or were lost (2). It
/// fills the first `length` bytes. `safe` is 1 if no stripe is harmed, else 0. If there is less room, nothing is
/// written but `safe` and the `length` that it needs.
#[unsafe(no_mangle)]
pub extern "C" fn lrc_embed_forecast_table(
    alloc: Global,
    handle: &mut LrcHandle,
    outage: u8,
    nodes: &[u16],
    text: &mut [u8],
    length: &mut usize,
    safe: &mut u8,
) -> u32
    ensures same { handle.new.owned.book ≡ handle.old.owned.book }
    ensures done { (result ≡ DONE) → Of handle.old.owned.book (λ b. (o : AnyOutage)
        × (outage_of outage ≡ Some o)
        × IsTextPut (forecast_text (outlooks_of b o nodes.now)) text.old text.new length.new) }
    ensures short { (result ≡ SHORT) → Of handle.old.owned.book (λ b. (o : AnyOutage)
        × (outage_of outage ≡ Some o)
        × IsTooLong (forecast_text (outlooks_of b o nodes.now)) text.old length.new) }
    ensures safe { (result ≡ DONE) ⊎ (result ≡ SHORT) → Of handle.old.owned.book (λ b. (o : AnyOutage)
        × (outage_of outage ≡ Some o)
        × (safe.new ≡ flag (harms_none (outlooks_of b o nodes.now)))) }
    ensures unknown { (result ≢ IS_CLOSED) → (result ≢ OUT_OF_RANGE)
        → Of handle.old.owned.book (λ b. (result ≡ UNKNOWN) ↔ (are_nodes b nodes.now ≡ false)) }
    ensures closed { (result ≡ IS_CLOSED) → handle.old.owned.book ≡ None }
    // A closed handle returns this too.
    ensures range { (result ≡ OUT_OF_RANGE) ↔ (outage_of outage ≡ None) }
    // A closed handle requests no memory.
    ensures memory { (result ≡ OUT_OF_MEMORY) → is_some handle.old.owned.book ≡ true }
    ensures statuses { IsOneOf result (DONE ∷ IS_CLOSED ∷ OUT_OF_RANGE ∷ UNKNOWN ∷ OUT_OF_MEMORY ∷ SHORT ∷ []) }
    ensures unwritten { (result ≢ DONE) → text.new ≡ text.old }
    ensures unneeded { (result ≢ DONE) → (result ≢ SHORT) → (length.new ≡ length.old) × (safe.new ≡ safe.old) }
{
    let Some(outage) = outage_numbered(outage) else {
        return OUT_OF_RANGE;
    };
    let Some(book) = handle.take(alloc) else {
        return IS_CLOSED;
    };
    let status = put_forecast_table(alloc, &book, outage, nodes, text, length, safe);
    handle.put(book);
    status
}

/// Writes the table of a forecast, if the book has all these nodes.
fn put_forecast_table(
    alloc: Global,
    book: &Book,
    outage: Outage,
    nodes: &[u16],
    text: &mut [u8],
    length: &mut usize,
    safe: &mut u8,
) -> u32
    ensures done { (result ≡ DONE)
        → IsTextPut (forecast_text (outlooks_of book.now outage nodes.now)) text.old text.new length.new }
    ensures short { (result ≡ SHORT)
        → IsTooLong (forecast_text (outlooks_of book.now outage nodes.now)) text.old length.new }
    ensures safe { (result ≡ DONE) ⊎ (result ≡ SHORT)
        → safe.new ≡ flag (harms_none (outlooks_of book.now outage nodes.now)) }
    ensures unknown { (result ≡ UNKNOWN) ↔ (are_nodes book.now nodes.now ≡ false) }
    ensures statuses { IsOneOf result (DONE ∷ UNKNOWN ∷ OUT_OF_MEMORY ∷ SHORT ∷ []) }
    ensures unwritten { (result ≢ DONE) → text.new ≡ text.old }
    ensures unneeded { (result ≢ DONE) → (result ≢ SHORT) → (length.new ≡ length.old) × (safe.new ≡ safe.old) }
{
    if !are_nodes(book, nodes) {
        return UNKNOWN;
    }
    let Ok(rows) = outlooks(alloc, book, outage, nodes) else {
        return OUT_OF_MEMORY;
    };
    let Ok(table) = shown_forecast(alloc, rows.as_slice()) else {
        return OUT_OF_MEMORY;
    };
    *safe = flag(is_safe(rows.as_slice()));
    put_text(table.as_slice(), text, length)
}

/// The line of the reply of the entry at an index from 0: its number in the store, counted from 1, its reply, and the
/// end of the line. It fills the first `length` bytes. If there is less room, nothing is written but the `length` that
/// it needs. `FULL` if more than 9,223,372,036,854,775,808 entries are before the history.
#[unsafe(no_mangle)]
pub extern "C" fn lrc_embed_reply_line(
    alloc: Global,
    handle: &mut LrcHandle,
    index: usize,
    text: &mut [u8],
    length: &mut usize,
) -> u32
    ensures same { handle.new.owned.book ≡ handle.old.owned.book }
    ensures done { (result ≡ DONE) → Of handle.old.owned.book (λ b.
        IsReplyLine b index (λ line. IsTextPut line text.old text.new length.new)) }
    ensures short { (result ≡ SHORT) → Of handle.old.owned.book (λ b.
        IsReplyLine b index (λ line. IsTooLong line text.old length.new)) }
    ensures unknown { (result ≡ UNKNOWN) → Of handle.old.owned.book (λ b. slice_get b.history index ≡ None) }
    ensures full { (result ≡ FULL) → Of handle.old.owned.book (λ b. MOST_BEFORE < b.before) }
    ensures closed { (result ≡ IS_CLOSED) → handle.old.owned.book ≡ None }
    // A closed handle requests no memory.
    ensures memory { (result ≡ OUT_OF_MEMORY) → is_some handle.old.owned.book ≡ true }
    ensures statuses { IsOneOf result (DONE ∷ IS_CLOSED ∷ UNKNOWN ∷ FULL ∷ OUT_OF_MEMORY ∷ SHORT ∷ []) }
    ensures unwritten { (result ≢ DONE) → text.new ≡ text.old }
    ensures unneeded { (result ≢ DONE) → (result ≢ SHORT) → length.new ≡ length.old }
{
    let Some(book) = handle.take(alloc) else {
        return IS_CLOSED;
    };
    let status = put_reply_line(alloc, &book, index, text, length);
    handle.put(book);
    status
}

/// Writes the line of the reply of an entry into the first bytes of a buffer, if it has room for it.
fn put_reply_line(
    alloc: Global,
    book: &Book,
    index: usize,
    text: &mut [u8],
    length: &mut usize,
) -> u32
    ensures done { (result ≡ DONE) → IsReplyLine book.now index (λ line. IsTextPut line text.old text.new length.new) }
    ensures short { (result ≡ SHORT) → IsReplyLine book.now index (λ line. IsTooLong line text.old length.new) }
    ensures unknown { (result ≡ UNKNOWN) → slice_get book.now.history index ≡ None }
    ensures full { (result ≡ FULL) → MOST_BEFORE < book.now.before }
    ensures statuses { IsOneOf result (DONE ∷ UNKNOWN ∷ FULL ∷ OUT_OF_MEMORY ∷ SHORT ∷ []) }
    ensures unwritten { (result ≢ DONE) → text.new ≡ text.old }
    ensures unneeded { (result ≢ DONE) → (result ≢ SHORT) → length.new ≡ length.old }
{
    let history = book.history();
    if index >= history.len() {
        return UNKNOWN;
    }
    let before = book.before();
    if before > MOST_BEFORE {
        return FULL;
    }
    match line_at(alloc, history, index, before as usize + index + 1) {
        Ok(line) => put_text(line.as_slice(), text, length),
        Err(_) => OUT_OF_MEMORY,
    }
}

/// The line of the reply of the entry at an index, with this number.
fn line_at(
    alloc: Global,
    history: &[Record],
    index: usize,
    number: usize,
) -> Result<Vec<u8>, AllocError>
    requires within { index < length history.now }
    requires number { number < MOST_NUMBER }
    ensures { IfOk result (λ line. (e : Entry)
        × (slice_get history.now index ≡ Some e) × (line.items ≡ reply_line number e.reply)) }
{
    let mut line = Vec::new(alloc);
    let mut room = [0u8; LINE_ROOM];
    push_lines(&mut line, &history[index..index + 1], number, &mut room)?;
    Ok(line)
}
