//! The table of a forecast.

ghost use Rattle.std.specs.Prelude.{◌≡◌, ◌++◌, codes, decimal, string_bytes, IfOk, IfErr, OnOk};
ghost use Rattle.lrc_code.specs.declared.fault.Fault.TheVariants as fault;
ghost use Rattle.lrc_code.specs.Codes.{code_name};
ghost use Rattle.lrc_code.specs.Losses.{bits_set};
ghost use Rattle.lrc_forecast.specs.Forecasts.{is_harmed};
ghost use Rattle.lrc_text.specs.Tables.{level_text, margin_field, online_text};
ghost use Rattle.lrc_show.specs.Listed.{hex_field, fragments_field, members_of};
ghost use Rattle.lrc_show.specs.Shown.{margin_at, forecast_row, forecast_text};

use crate::words::{push_margin, push_mask, push_members};
use lrc_book::Level;
use lrc_code::{Code, Fault, StripeNo};
use lrc_forecast::Outlook;
use lrc_text::{level_word, online_word};
use std::alloc::{AllocError, Global};

/// The heads of the columns.
const HEADS: &str =
    "stripe,code,level_before,margin_before,level_after,margin_after,missing_after,missing_fragments_after,leases_ended,harmed\n";

/// The table of a forecast: a line of heads and a line for each stripe, of fields with commas between them.
///
/// # Errors
///
/// Only `Fault::OutOfMemory`.
pub fn shown_forecast(alloc: Global, rows: &[Outlook]) -> Result<Vec<u8>, Fault>
    ensures text { IfOk result (λ v. v.items ≡ forecast_text rows.now) }
    ensures err { IfErr result (λ e. e ≡ fault.OutOfMemory) }
{
    let mut out = String::new(alloc);
    out.push_str(HEADS)?;
    for row in rows {
        push_outlook(&mut out, *row)?;
    }
    Ok(out.into_bytes())
}

/// Adds the row of a stripe.
fn push_outlook(out: &mut String, row: Outlook) -> Result<(), AllocError>
    ensures { OnOk result (string_bytes out.new ≡ string_bytes out.old ++ forecast_row row) }
{
    push_name(out, row.stripe, row.code)?;
    push_level(out, row.before)?;
    push_level(out, row.after)?;
    push_mask(out, row.missing)?;
    out.push_str(",")?;
    push_members(out, row.code, row.missing)?;
    push_harm(out, row)
}

/// Adds the number of a stripe and its code, with a comma behind each.
fn push_name(out: &mut String, stripe: StripeNo, code: Code) -> Result<(), AllocError>
    ensures { OnOk result (string_bytes out.new ≡ string_bytes out.old ++ (decimal stripe.value ++ codes "," ++ code_name code ++ codes ",")) }
{
    let number = stripe.value;
    let code_name = code.name();
    write!(out, "{number},{code_name},")
}

/// Adds a level and its margin, with a comma behind each.
fn push_level(out: &mut String, level: Level) -> Result<(), AllocError>
    ensures { OnOk result (string_bytes out.new ≡ string_bytes out.old ++ (level_text level ++ codes "," ++ margin_field (margin_at level) ++ codes ",")) }
{
    out.push_str(level_word(level))?;
    out.push_str(",")?;
    push_margin(out, margin_at(level))?;
    out.push_str(",")
}

/// Adds how many leases of a stripe end, and whether it is harmed, with a comma before each.
fn push_harm(out: &mut String, row: Outlook) -> Result<(), AllocError>
    ensures { OnOk result (string_bytes out.new ≡ string_bytes out.old ++ (codes "," ++ decimal row.leases_ended ++ codes "," ++ online_text (is_harmed row) ++ codes "\n")) }
{
    let leases_ended = row.leases_ended;
    let harmed = online_word(row.is_harmed());
    write!(out, ",{leases_ended},{harmed}\n")
}

/// How many more losses a stripe of this level survives, whichever fragments are lost.
fn margin_at(level: Level) -> Option<u8>
    ensures { result ≡ margin_at level }
{
    match level {
        Level::Whole => Some(3),
        Level::AtRisk(margin) => Some(margin),
        Level::Unavailable | Level::Lost => None,
    }
}
