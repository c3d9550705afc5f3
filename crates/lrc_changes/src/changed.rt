//! The fragments whose home or lease is another one after an entry, looked up before it is made, and their rows,
//! written after it.

ghost use Rattle.std.specs.Prelude.{◌≡◌, ◌-◌, ◌<◌, ◌≤◌, if◌then◌else◌, Some, None, IfOk, IfErr, map, length};
ghost use Rattle.std.specs.List.{filter_map, range_with_len};
ghost use Rattle.lrc_code.specs.declared.fault.Fault.TheVariants as fault;
ghost use Rattle.lrc_rules.specs.Goodness.{AreSeated};
ghost use Rattle.lrc_book.specs.Books.{state_of, IsStep, state_after_entry};
ghost use Rattle.lrc_walks.specs.WalkRows.{AreFirstRows, place_at};
ghost use Rattle.lrc_changes.specs.Changes.{own_home, former, changed, row_now};
ghost use Rattle.lrc_changes.specs.Touched.{touched_at};

use crate::touch::{reach, touches};
use crate::{Former, LrcChange};
use lrc_book::{Book, Entry, Seat};
use lrc_code::{FRAGMENTS, Fault, Fragment, StripeNo};
use std::alloc::Global;

/// The fragments whose home or lease is another one after the next entry of the book, as they are now, in rising order
/// of stripe and fragment.
///
/// # Errors
///
/// Only `Fault::OutOfMemory`.
pub fn changed_by(alloc: Global, book: &Book, entry: &Entry) -> Result<Vec<Former>, Fault>
    requires step { IsStep book.now entry.now }
    ensures value { IfOk result (λ rows.
        rows.items ≡ map (former (state_of book.now))
        (changed (state_of book.now) (state_after_entry book.now entry.now))) }
    ensures err { IfErr result (λ e. e ≡ fault.OutOfMemory) }
{
    book.history(); // so that its contract tells that the seats are in order
    let (start, end) = reach(entry);
    touched_from(alloc, book, entry, start, end)
}

/// The fragments whose home or lease is another one after the entry, of those at the places from `start` to `end`.
fn touched_from(
    alloc: Global,
    book: &Book,
    entry: &Entry,
    start: usize,
    end: usize,
) -> Result<Vec<Former>, Fault>
    requires seated { AreSeated book.now.nodes (state_of book.now) }
    requires end { end ≤ 65536 }
    ensures value { IfOk result (λ rows.
        rows.items ≡ filter_map (touched_at (state_of book.now) entry.now.command entry.now.reply)
        (range_with_len start (end - start))) }
    ensures err { IfErr result (λ e. e ≡ fault.OutOfMemory) }
{
    let mut rows = Vec::new(alloc);
    for place in start..end {
        if let Some(row) = touched_at(book, entry, place) {
            rows.push(row)?;
        }
    }
    Ok(rows)
}

/// The fragment at a place, if its home or lease is another one after the entry.
fn touched_at(book: &Book, entry: &Entry, place: usize) -> Option<Former>
    requires seated { AreSeated book.now.nodes (state_of book.now) }
    ensures { place < 65536 → result ≡ touched_at (state_of book.now) entry.now.command entry.now.reply place }
{
    let stripe = StripeNo::new(u16::try_from(place / FRAGMENTS).ok()?)?;
    let fragment = Fragment::new((place % FRAGMENTS) as u8)?;
    let former = former(book, stripe, fragment);
    if !touches(entry, &former) {
        return None;
    }
    Some(former)
}

/// A fragment as it is now.
fn former(book: &Book, stripe: StripeNo, fragment: Fragment) -> Former
    requires seated { AreSeated book.now.nodes (state_of book.now) }
    ensures { result ≡ former (state_of book.now) (stripe, fragment) }
{
    Former {
        stripe,
        fragment,
        home: home_of(book, stripe, fragment),
        lease: book.lease(stripe, fragment),
    }
}

/// The home of a fragment.
fn home_of(book: &Book, stripe: StripeNo, fragment: Fragment) -> Option<Seat>
    requires seated { AreSeated book.now.nodes (state_of book.now) }
    ensures { result ≡ own_home (state_of book.now) (stripe, fragment) }
{
    book.packed_homes(stripe)?.home(fragment)
}

/// Writes the rows of fragments that were as `formers` says, as they are in the book now.
pub fn put_changes(book: &Book, formers: &[Former], rows: &mut [LrcChange])
    requires room { length formers.now ≤ length rows.old }
    ensures { AreFirstRows (map (row_now (state_of book.now)) formers.now) (length formers.now) rows.old rows.new }
{
    book.history(); // as above
    for (i, former) in formers.iter().enumerate() {
        rows[i] = row_now(book, former);
    }
}

/// The row of a fragment.
fn row_now(book: &Book, former: &Former) -> LrcChange
    requires seated { AreSeated book.now.nodes (state_of book.now) }
    ensures { result ≡ row_now (state_of book.now) former.now }
{
    LrcChange::of(
        former,
        home_of(book, former.stripe, former.fragment),
        book.lease(former.stripe, former.fragment),
    )
}
