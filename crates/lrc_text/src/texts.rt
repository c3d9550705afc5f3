//! The lines of replies.
//!
//! A line is written from its last byte to its first. Each function `write_*` writes a text so that it ends at `end`, and
//! returns where it starts. It may overwrite the bytes before that.

ghost use Rattle.std.specs.Prelude.{◌≡◌, ◌+◌, ◌*◌, ◌^◌, ◌<◌, ◌≤◌, ◌++◌, length, drop, OnOk, codes, decimal, map};
ghost use Rattle.lrc_rules.specs.declared.reply.Reply.TheVariants.{Granted, Refused, Ticked};
ghost use Rattle.lrc_answers.specs.Answers.{lent};
ghost use Rattle.lrc_text.specs.Texts.{seat_text, spaced_words, reply_text, reply_line, lines_from, script_line};

use crate::digits::Digits;
use crate::parts::{write_kind, write_lease, write_seats, write_u32, write_words};
use lrc_book::{Kind, Lease, Record, Refusal, ReplyRef, Seat};
use lrc_code::SessionNo;
use std::alloc::AllocError;

/// Room for words, a number and the end of a line.
const DETAIL_ROOM: usize = 24;

/// Room for a word, a lease, the kind of its repair, and the end of a line.
const GRANTED_ROOM: usize = 92;

/// Room for a word, two numbers, and the end of a line.
const TICKED_ROOM: usize = 30;

/// Room for the longest reply: a word, the sixteen seats of a stripe, and the end of a line.
const REPLY_ROOM: usize = 200;

/// Room for a line: a number of at most twenty digits, and a reply.
pub const LINE_ROOM: usize = 220;

/// The least number whose hundreds have more digits than `Digits` holds.
const LONG_NUMBER: usize = 10_000_000_000;

/// Adds a number in decimal digits.
fn push_number(out: &mut Vec<u8>, number: u64) -> Result<(), AllocError>
    ensures { OnOk result (out.new.items ≡ out.old.items ++ decimal number) }
{
    let mut digits = itoa::Buffer::new();
    out.extend_from_slice(digits.format(number).as_bytes())
}

/// Writes words, a number and the end of a line.
#[inline(never)] // most refusals have no number, and skip this
fn write_detail(words: &[u8; 13], number: u32, text: &mut [u8], end: usize) -> usize
    requires { (DETAIL_ROOM ≤ end) × (end ≤ length text.old) }
    ensures start { (end ≤ result + DETAIL_ROOM) × (result ≤ end) }
    ensures written { drop result text.new ≡ (words.now ++ (decimal number ++ codes "\n")) ++ drop end text.old }
{
    let digits = write_words(b"\n", text, end);
    let start = write_u32(number, text, digits);
    write_words(words, text, start)
}

/// Writes a space, a refusal and the end of the line.
#[inline(always)] // as `write_reply`
fn write_refusal(refusal: &Refusal, text: &mut [u8], end: usize) -> usize
    requires { (DETAIL_ROOM ≤ end) × (end ≤ length text.old) }
    ensures start { (end ≤ result + DETAIL_ROOM) × (result ≤ end) }
    ensures written { drop result text.new ≡ (codes " " ++ (reply_text (Refused refusal.now) ++ codes "\n")) ++ drop end text.old }
{
    match refusal {
        Refusal::UnknownStripe => write_words(b" refused 101\n", text, end),
        Refusal::StripeExists => write_words(b" refused 102\n", text, end),
        Refusal::NoLawfulNode(fragment) => {
            write_detail(b" refused 103 ", u32::from(fragment.value), text, end)
        }
        Refusal::UnknownNode => write_words(b" refused 104\n", text, end),
        Refusal::WrongMode => write_words(b" refused 105\n", text, end),
        Refusal::UnknownDomain => write_words(b" refused 106\n", text, end),
        Refusal::UpgradeRunning(domain) => {
            write_detail(b" refused 107 ", u32::from(domain.value), text, end)
        }
        Refusal::NotUpgrading => write_words(b" refused 108\n", text, end),
        Refusal::WouldLose(stripe) => {
            write_detail(b" refused 109 ", u32::from(stripe.value), text, end)
        }
        Refusal::AlreadyLeased(epoch) => write_detail(b" refused 110 ", *epoch, text, end),
        Refusal::NotNeeded => write_words(b" refused 111\n", text, end),
        Refusal::Unrecoverable => write_words(b" refused 112\n", text, end),
        Refusal::Stale => write_words(b" refused 113\n", text, end),
        Refusal::NotHolder(holder) => {
            write_detail(b" refused 114 ", u32::from(holder.value), text, end)
        }
        Refusal::TargetOffline(node) => {
            write_detail(b" refused 115 ", u32::from(node.value), text, end)
        }
        Refusal::NoLease => write_words(b" refused 116\n", text, end),
        Refusal::NotEmpty(load) => write_detail(b" refused 117 ", *load, text, end),
    }
}

/// Writes the seats of a stripe of either code, a word before them, and the end of the line.
#[inline(never)] // keeps the loop over lines small
fn write_placed<const N: usize>(seats: &[Seat; N], text: &mut [u8], end: usize) -> usize
    requires few { N ≤ 16 }
    requires room { (REPLY_ROOM ≤ end) × (end ≤ length text.old) }
    ensures start { (end ≤ result + REPLY_ROOM) × (result ≤ end) }
    ensures written { drop result text.new ≡ (codes " placed" ++ (spaced_words (map seat_text seats.now) ++ codes "\n")) ++ drop end text.old }
{
    let last = write_words(b"\n", text, end);
    let first = write_seats(seats.as_slice(), text, last);
    write_words(b" placed", text, first)
}

#[inline(never)] // as `write_placed`
fn write_granted(lease: &Lease, kind: &Kind, text: &mut [u8], end: usize) -> usize
    requires { (GRANTED_ROOM ≤ end) × (end ≤ length text.old) }
    ensures start { (end ≤ result + GRANTED_ROOM) × (result ≤ end) }
    ensures written { drop result text.new ≡ (codes " " ++ (reply_text (Granted lease.now kind.now) ++ codes "\n")) ++ drop end text.old }
{
    let last = write_words(b"\n", text, end);
    let source = write_kind(kind, text, last);
    let target = write_lease(lease, text, source);
    write_words(b" granted", text, target)
}

fn write_ticked(clock: u32, ended: u32, text: &mut [u8], end: usize) -> usize
    requires { (TICKED_ROOM ≤ end) × (end ≤ length text.old) }
    ensures start { (end ≤ result + TICKED_ROOM) × (result ≤ end) }
    ensures written { drop result text.new ≡ (codes " " ++ (reply_text (Ticked clock ended) ++ codes "\n")) ++ drop end text.old }
{
    let last = write_words(b"\n", text, end);
    let second = write_u32(ended, text, last);
    let between = write_words(b" ", text, second);
    let first = write_u32(clock, text, between);
    write_words(b" ticked ", text, first)
}

/// Writes a space, a reply and the end of the line.
#[inline(always)] // so that the reply of an entry is matched once
fn write_reply(reply: &ReplyRef<'_>, text: &mut [u8], end: usize) -> usize
    requires { (REPLY_ROOM ≤ end) × (end ≤ length text.old) }
    ensures start { (end ≤ result + REPLY_ROOM) × (result ≤ end) }
    ensures written { drop result text.new ≡ (codes " " ++ (reply_text (lent reply.now) ++ codes "\n")) ++ drop end text.old }
{
    match *reply {
        ReplyRef::Placed(seats) => write_placed(seats, text, end),
        ReplyRef::Placed6(seats) => write_placed(seats, text, end),
        ReplyRef::Dropped => write_words(b" dropped\n", text, end),
        ReplyRef::Granted(lease, kind) => write_granted(lease, kind, text, end),
        ReplyRef::Idle => write_words(b" idle\n", text, end),
        ReplyRef::Ended => write_words(b" ended\n", text, end),
        ReplyRef::Changed => write_words(b" changed\n", text, end),
        ReplyRef::Refused(refusal) => write_refusal(&refusal, text, end),
        ReplyRef::Ticked { clock, ended } => write_ticked(clock, ended, text, end),
    }
}

// ---- lines

/// Writes the line of a reply. Its call has this number in the history, counted from 1.
fn write_line(number: usize, reply: &ReplyRef<'_>, text: &mut [u8], end: usize) -> usize
    requires { (LINE_ROOM ≤ end) × (end ≤ length text.old) }
    ensures start { (end ≤ result + LINE_ROOM) × (result ≤ end) }
    ensures written { drop result text.new ≡ reply_line number (lent reply.now) ++ drop end text.old }
{
    let start = write_reply(reply, text, end);
    itoa::write_digits(number as u64, text, start)
}

/// Writes the lines of entries, of which the first has the number `100 * hundreds + rest`. The digits of `hundreds` are computed
/// once.
fn write_hundred(
    records: &[Record],
    hundreds: usize,
    rest: usize,
    text: &mut [u8],
    end: usize,
) -> usize
    requires hundreds { (0 < hundreds) × (hundreds < 10 ^ 8) }
    requires rest { rest + length records.now ≤ 100 }
    requires room { (LINE_ROOM * length records.now ≤ end) × (end ≤ length text.old) }
    ensures start { (end ≤ result + LINE_ROOM * length records.now) × (result ≤ end) }
    ensures written { drop result text.new ≡ lines_from (hundreds * 100 + rest) records.now ++ drop end text.old }
{
    let digits = Digits::of(hundreds as u64);
    let mut left = records.len();
    let mut at = end;
    while left > 0 {
        left -= 1;
        let start = write_reply(&records[left].reply_ref(), text, at);
        at = digits.write_with(rest + left, text, start);
    }
    at
}

/// Writes the lines of entries, of which the first has the number `first`.
fn write_lines(records: &[Record], first: usize, text: &mut [u8], end: usize) -> usize
    requires numbers { first + length records.now < 2 ^ 64 }
    requires room { (LINE_ROOM * length records.now ≤ end) × (end ≤ length text.old) }
    ensures start { result ≤ end }
    ensures written { drop result text.new ≡ lines_from first records.now ++ drop end text.old }
{
    let mut left = records.len();
    let mut at = end;
    while left > 0 {
        let last = first + left - 1;
        if last < 100 || last >= LONG_NUMBER {
            left -= 1;
            at = write_line(last, &records[left].reply_ref(), text, at);
        } else {
            let many = left.min(last % 100 + 1);
            let same = &records[left - many..left];
            at = write_hundred(same, last / 100, last % 100 + 1 - many, text, at);
            left -= many;
        }
    }
    at
}

/// Adds the lines of entries, of which the first has the number `first`. They are first written into `room`.
pub fn push_lines(
    out: &mut Vec<u8>,
    records: &[Record],
    first: usize,
    room: &mut [u8],
) -> Result<(), AllocError>
    requires numbers { first + length records.now < 2 ^ 64 }
    requires room { LINE_ROOM * length records.now ≤ length room.old }
    ensures same { length room.new ≡ length room.old }
    ensures lines { OnOk result (out.new.items ≡ out.old.items ++ lines_from first records.now) }
{
    let end = room.len();
    let start = write_lines(records, first, room, end);
    out.extend_from_slice(&room[start..])
}

/// Adds the text of a reply, without a number before it or an end of a line after it.
pub fn push_reply(out: &mut Vec<u8>, reply: &ReplyRef<'_>) -> Result<(), AllocError>
    ensures { OnOk result (out.new.items ≡ out.old.items ++ reply_text (lent reply.now)) }
{
    let mut room = [0u8; REPLY_ROOM];
    let start = write_reply(reply, &mut room, REPLY_ROOM);
    let text = &room[start + 1..REPLY_ROOM - 1];
    out.extend_from_slice(text)
}

/// Adds the line before the replies of a session's script.
pub fn push_script_line(out: &mut Vec<u8>, session: SessionNo) -> Result<(), AllocError>
    ensures { OnOk result (out.new.items ≡ out.old.items ++ script_line session.value) }
{
    out.extend_from_slice(b"script ")?;
    push_number(out, u64::from(session.value))?;
    out.extend_from_slice(b"\n")
}
