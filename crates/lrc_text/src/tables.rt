//! The tables of stripes at risk and of loads.

ghost use Rattle.std.specs.Prelude.{◌≡◌, ◌++◌, string_bytes, IfOk, OnOk, IfErr};
ghost use Rattle.lrc_code.specs.declared.fault.Fault.TheVariants as fault;
ghost use Rattle.lrc_code.specs.Losses.{bits_set, margin_of};
ghost use Rattle.lrc_book.specs.Books.{state_of};
ghost use Rattle.lrc_text.specs.Tables.{level_text, margin_field, mask_field, risk_line, risk_table, mode_text, online_text, load_line, load_table, tables_text};
ghost use Rattle.lrc_text.specs.Writers.{text_in, IsBetweenRows};

use crate::table::{Table, begin_table, end_table, push_row};
use lrc_book::{Book, Level, Mode};
use lrc_code::{Code, Fault, LossMask, StripeNo};
use lrc_topology::NodeInfo;
use std::alloc::{AllocError, Global};

/// Adds both tables of a book to a text.
pub fn with_tables(alloc: Global, text: Vec<u8>, book: &Book) -> Result<Vec<u8>, Fault>
    ensures text { IfOk result (λ v. v.items ≡ text.items ++ tables_text book.now.nodes (state_of book.now)) }
    ensures err { IfErr result (λ e. e ≡ fault.OutOfMemory) }
{
    let text = with_risk_table(alloc, text, book)?;
    with_load_table(text, book)
}

fn with_risk_table(alloc: Global, mut text: Vec<u8>, book: &Book) -> Result<Vec<u8>, Fault>
    ensures text { IfOk result (λ v. v.items ≡ text.items ++ risk_table book.now.nodes (state_of book.now)) }
    ensures err { IfErr result (λ e. e ≡ fault.OutOfMemory) }
{
    let rows = book.risk(alloc)?;
    text.extend_from_slice(b"risk\nstripe,level,margin,missing\n")?;
    let mut table = begin_table(text);
    for (stripe, level) in rows.as_slice() {
        let code = book.code(*stripe).unwrap();
        let missing = book.missing(*stripe).unwrap();
        push_risk_row(alloc, &mut table, *stripe, *level, code, missing)?;
    }
    end_table(table)
}

fn with_load_table(mut text: Vec<u8>, book: &Book) -> Result<Vec<u8>, Fault>
    ensures text { IfOk result (λ v. v.items ≡ text.items ++ load_table book.now.nodes (state_of book.now)) }
    ensures err { IfErr result (λ e. e ≡ fault.OutOfMemory) }
{
    text.extend_from_slice(b"load\nnode,mode,online,load,slots\n")?;
    let mut table = begin_table(text);
    for node in book.topology().nodes() {
        let (mode, online) = book.mode(node.number).unwrap();
        let load = book.load(node.number).unwrap();
        push_load_row(&mut table, node, mode, online, load)?;
    }
    end_table(table)
}

// ---- words

/// The word for a level.
pub fn level_word(level: Level) -> &'static str
    ensures { result.now ≡ level_text level }
{
    match level {
        Level::Whole => "whole",
        Level::AtRisk(_) => "risk",
        Level::Unavailable => "unavailable",
        Level::Lost => "lost",
    }
}

/// The word for a mode.
pub fn mode_word(mode: Mode) -> &'static str
    ensures { result.now ≡ mode_text mode }
{
    match mode {
        Mode::Active => "active",
        Mode::Draining => "draining",
        Mode::Gone => "gone",
    }
}

/// `yes` or `no`.
pub fn online_word(online: bool) -> &'static str
    ensures { result.now ≡ online_text online }
{
    if online { "yes" } else { "no" }
}

fn margin_word(alloc: Global, margin: Option<u8>) -> Result<String, AllocError>
    ensures { IfOk result (λ word. string_bytes word ≡ margin_field margin) }
{
    match margin {
        Some(margin) => format!(in alloc; "{margin}"),
        None => String::from_str(alloc, "-"),
    }
}

/// The number in four hexadecimal digits.
fn mask_word(alloc: Global, bits: u16) -> Result<String, AllocError>
    ensures { IfOk result (λ word. string_bytes word ≡ mask_field bits) }
{
    format!(in alloc; "{bits:04x}")
}

// ---- rows

/// Adds the row of a stripe with this level and code, and these missing fragments.
fn push_risk_row(
    alloc: Global,
    table: &mut Table,
    stripe: StripeNo,
    level: Level,
    code: Code,
    missing: LossMask,
) -> Result<(), Fault>
    requires { IsBetweenRows table.old }
    ensures row { OnOk result (text_in table.new ≡ text_in table.old ++ risk_line stripe level code missing.bits) }
    ensures between { OnOk result (IsBetweenRows table.new) }
    ensures err { IfErr result (λ e. e ≡ fault.OutOfMemory) }
{
    let number = stripe.value;
    let stripe_word = format!(in alloc; "{number}")?;
    let margin = margin_word(alloc, missing.margin_in(code))?;
    let mask = mask_word(alloc, missing.bits())?;
    let fields = [
        stripe_word.as_bytes(),
        level_word(level).as_bytes(),
        margin.as_bytes(),
        mask.as_bytes(),
    ];
    push_row(table, fields.as_slice())
}

/// Adds the row of a node with this mode and load.
fn push_load_row(
    table: &mut Table,
    node: &NodeInfo,
    mode: Mode,
    online: bool,
    load: u32,
) -> Result<(), Fault>
    requires { IsBetweenRows table.old }
    ensures row { OnOk result (text_in table.new ≡ text_in table.old ++ load_line node.now mode online load) }
    ensures between { OnOk result (IsBetweenRows table.new) }
    ensures err { IfErr result (λ e. e ≡ fault.OutOfMemory) }
{
    let mut number_digits = itoa::Buffer::new();
    let mut load_digits = itoa::Buffer::new();
    let mut slots_digits = itoa::Buffer::new();
    let fields = [
        number_digits.format(node.number.value).as_bytes(),
        mode_word(mode).as_bytes(),
        online_word(online).as_bytes(),
        load_digits.format(load).as_bytes(),
        slots_digits.format(node.slots).as_bytes(),
    ];
    push_row(table, fields.as_slice())
}
