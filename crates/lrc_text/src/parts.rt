//! The parts of a reply: words, numbers, seats, leases and kinds of repair.
//!
//! Each function `write_*` writes a text so that it ends at `end`, and returns where it starts. It may overwrite the bytes
//! before that.

ghost use Rattle.std.specs.Prelude.{◌≡◌, ◌+◌, ◌*◌, ◌<◌, ◌≤◌, ◌∷◌, ◌++◌, length, drop, codes, decimal, map};
ghost use Rattle.lrc_text.specs.Texts.{seat_text, spaced_words, lease_text, kind_text};

use crate::digits::write_below_1000;
use lrc_book::{Kind, Lease, Seat};
use lrc_code::Fragment;

/// Room for a number of 32 bits.
const NUMBER_ROOM: usize = 10;

/// Room for a seat: a space, two numbers of at most five digits, and a colon.
const SEAT_ROOM: usize = 12;

/// Room for a fragment: a space and a number of at most five digits.
const FRAGMENT_ROOM: usize = 6;

/// Room for a word and the six sources of a repair from a local group.
const KIND_ROOM: usize = 42;

/// Room for a stripe, a fragment and a seat, a space before each.
const TARGET_ROOM: usize = 24;

/// Room for a target, a word and an epoch.
const LEASE_ROOM: usize = 41;

/// Overwrites a text with words of the same length, in one store where the caller knows that length.
#[inline(always)]
fn put_words<const N: usize>(words: &[u8; N], text: &mut [u8])
    requires { length text.old ≡ N }
    ensures { text.new ≡ words.now }
{
    *text.as_mut_array().unwrap() = *words;
}

/// Writes words.
#[inline(always)]
pub(crate) fn write_words<const N: usize>(words: &[u8; N], text: &mut [u8], end: usize) -> usize
    requires { (N ≤ end) × (end ≤ length text.old) }
    ensures start { result + N ≡ end }
    ensures written { drop result text.new ≡ words.now ++ drop end text.old }
{
    let start = end - N;
    put_words(words, &mut text[start..end]);
    start
}

/// Writes a number of 32 bits.
#[inline]
pub(crate) fn write_u32(number: u32, text: &mut [u8], end: usize) -> usize
    requires { (NUMBER_ROOM ≤ end) × (end ≤ length text.old) }
    ensures start { (end ≤ result + NUMBER_ROOM) × (result ≤ end) }
    ensures written { drop result text.new ≡ decimal number ++ drop end text.old }
{
    if number < 1000 {
        return write_below_1000(number as u16, text, end);
    }
    itoa::write_digits(u64::from(number), text, end)
}

/// Writes a number of 16 bits. Most have at most three digits.
#[inline(always)]
fn write_u16(number: u16, text: &mut [u8], end: usize) -> usize
    requires { (5 ≤ end) × (end ≤ length text.old) }
    ensures start { (end ≤ result + 5) × (result ≤ end) }
    ensures written { drop result text.new ≡ decimal number ++ drop end text.old }
{
    if number < 1000 {
        return write_below_1000(number, text, end);
    }
    itoa::write_digits(u64::from(number), text, end)
}

/// Writes a mark and a number.
fn write_marked(mark: u8, number: u16, text: &mut [u8], end: usize) -> usize
    requires { (6 ≤ end) × (end ≤ length text.old) }
    ensures start { (end ≤ result + 6) × (result < end) }
    ensures written { drop result text.new ≡ mark ∷ (decimal number ++ drop end text.old) }
{
    let digits = write_u16(number, text, end);
    text[digits - 1] = mark;
    digits - 1
}

/// Writes a space and a seat.
#[inline(always)]
fn write_seat(seat: &Seat, text: &mut [u8], end: usize) -> usize
    requires { (SEAT_ROOM ≤ end) × (end ≤ length text.old) }
    ensures start { (end ≤ result + SEAT_ROOM) × (result < end) }
    ensures written { drop result text.new ≡ (codes " " ++ seat_text seat.now) ++ drop end text.old }
{
    let slot = write_marked(b':', seat.slot, text, end);
    write_marked(b' ', seat.node.value, text, slot)
}

/// Writes seats, a space before each.
pub(crate) fn write_seats(seats: &[Seat], text: &mut [u8], end: usize) -> usize
    requires { (SEAT_ROOM * length seats.now ≤ end) × (end ≤ length text.old) }
    ensures start { (end ≤ result + SEAT_ROOM * length seats.now) × (result ≤ end) }
    ensures written { drop result text.new ≡ spaced_words (map seat_text seats.now) ++ drop end text.old }
{
    let mut left = seats.len();
    let mut at = end;
    while left > 0 {
        left -= 1;
        at = write_seat(&seats[left], text, at);
    }
    at
}

/// Writes the stripe, the fragment and the target of a lease, a space before each.
fn write_target(lease: &Lease, text: &mut [u8], end: usize) -> usize
    requires { (TARGET_ROOM ≤ end) × (end ≤ length text.old) }
    ensures start { (end ≤ result + TARGET_ROOM) × (result ≤ end) }
    ensures written { drop result text.new ≡ (codes " " ++ (decimal lease.now.stripe.value ++ (codes " " ++ (decimal lease.now.fragment.value ++ (codes " " ++ seat_text lease.now.target))))) ++ drop end text.old }
{
    let seat = write_seat(&lease.target, text, end);
    let fragment = write_marked(b' ', u16::from(lease.fragment.value), text, seat);
    write_marked(b' ', lease.stripe.value, text, fragment)
}

/// Writes a space and a lease.
pub(crate) fn write_lease(lease: &Lease, text: &mut [u8], end: usize) -> usize
    requires { (LEASE_ROOM ≤ end) × (end ≤ length text.old) }
    ensures start { (end ≤ result + LEASE_ROOM) × (result ≤ end) }
    ensures written { drop result text.new ≡ (codes " " ++ lease_text lease.now) ++ drop end text.old }
{
    let epoch = write_u32(lease.epoch, text, end);
    let target = write_words(b" epoch ", text, epoch);
    write_target(lease, text, target)
}

/// Writes fragments, a space before each.
fn write_sources(sources: &[Fragment], text: &mut [u8], end: usize) -> usize
    requires { (FRAGMENT_ROOM * length sources.now ≤ end) × (end ≤ length text.old) }
    ensures start { (end ≤ result + FRAGMENT_ROOM * length sources.now) × (result ≤ end) }
    ensures written { drop result text.new ≡ spaced_words (map (λ f. decimal f.value) sources.now) ++ drop end text.old }
{
    let mut left = sources.len();
    let mut at = end;
    while left > 0 {
        left -= 1;
        at = write_marked(b' ', u16::from(sources[left].value), text, at);
    }
    at
}

/// Writes the sources of a repair from a local group, and a word before them.
fn write_local<const N: usize>(sources: &[Fragment; N], text: &mut [u8], end: usize) -> usize
    requires few { N ≤ 6 }
    requires room { (KIND_ROOM ≤ end) × (end ≤ length text.old) }
    ensures start { (end ≤ result + KIND_ROOM) × (result ≤ end) }
    ensures written { drop result text.new ≡ (codes " local" ++ spaced_words (map (λ f. decimal f.value) sources.now)) ++ drop end text.old }
{
    let start = write_sources(sources.as_slice(), text, end);
    write_words(b" local", text, start)
}

/// Writes a space and the kind of a repair.
#[inline(always)] // in the text of a grant it needs no bounds checks of its own
pub(crate) fn write_kind(kind: &Kind, text: &mut [u8], end: usize) -> usize
    requires { (KIND_ROOM ≤ end) × (end ≤ length text.old) }
    ensures start { (end ≤ result + KIND_ROOM) × (result ≤ end) }
    ensures written { drop result text.new ≡ (codes " " ++ kind_text kind.now) ++ drop end text.old }
{
    match kind {
        Kind::Local(sources) => write_local(sources, text, end),
        Kind::Local3(sources) => write_local(sources, text, end),
        Kind::Global => write_words(b" global", text, end),
        Kind::Move => write_words(b" move", text, end),
    }
}
