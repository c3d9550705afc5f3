//! The table of stripes.

ghost use Rattle.std.specs.Prelude.{◌≡◌, ◌++◌, if◌then◌else◌, [], codes, decimal, flat_map, map, get_or, None, string_bytes, OnOk, IfErr};
ghost use Rattle.lrc_code.specs.declared.fault.Fault.TheVariants as fault;
ghost use Rattle.lrc_code.specs.Codes.{fragments, code_name, all_fragments};
ghost use Rattle.lrc_code.specs.Losses.{FragmentSet, bits_set, bits_of};
ghost use Rattle.lrc_terms.specs.Levels.{Homes};
ghost use Rattle.lrc_rules.specs.States.{has_stripe};
ghost use Rattle.lrc_book.specs.Books.{state_of};
ghost use Rattle.lrc_text.specs.Tables.{level_text};
ghost use Rattle.lrc_show.specs.Listed.{hex_field, fragments_field, members_of, home_field, stripe_line, shown_stripe, stripes_table};

use crate::words::{push_margin, push_mask, push_members};
use lrc_book::{Book, Level, Seat, homeless_of};
use lrc_code::{Code, FRAGMENTS, Fault, Fragment, LossMask, STRIPES, StripeNo};
use lrc_text::level_word;
use std::alloc::AllocError;

/// The heads of the columns.
const HEADS: &str =
    "stripe,code,level,margin,missing,missing_fragments,homeless,homeless_fragments,home_0,home_1,home_2,home_3,home_4,home_5,home_6,home_7,home_8,home_9,home_10,home_11,home_12,home_13,home_14,home_15\n";

/// The number of stripe numbers.
const STRIPE_NUMBERS: u16 = STRIPES as u16;

/// Adds the table of stripes.
pub(crate) fn push_stripes(out: &mut String, book: &Book) -> Result<(), Fault>
    ensures text { OnOk result (string_bytes out.new ≡ string_bytes out.old ++ stripes_table book.now.nodes (state_of book.now)) }
    ensures err { IfErr result (λ e. e ≡ fault.OutOfMemory) }
{
    out.push_str(HEADS)?;
    for number in 0..STRIPE_NUMBERS {
        let stripe = StripeNo::new(number).unwrap();
        push_stripe(out, book, stripe)?;
    }
    Ok(())
}

/// Adds the row of a stripe, if there is one.
fn push_stripe(out: &mut String, book: &Book, stripe: StripeNo) -> Result<(), AllocError>
    ensures { OnOk result (string_bytes out.new ≡ string_bytes out.old ++ (if has_stripe (state_of book.now) stripe then shown_stripe book.now.nodes (state_of book.now) stripe else [])) }
{
    let Some(code) = book.code(stripe) else {
        return Ok(());
    };
    let level = book.level(stripe).unwrap();
    let missing = book.missing(stripe).unwrap();
    let homes = book.homes(stripe).unwrap();
    push_row(out, stripe, code, level, missing, &homes)?;
    Ok(())
}

/// Adds the row of a stripe with this code and level, these missing fragments, and these homes.
fn push_row(
    out: &mut String,
    stripe: StripeNo,
    code: Code,
    level: Level,
    missing: LossMask,
    homes: &[Option<Seat>; FRAGMENTS],
) -> Result<(), AllocError>
    ensures { OnOk result ((m : FragmentSet) (of : Homes) → missing.bits ≡ bits_of code m → homes.now ≡ map (λ f. of f.value) all_fragments →
        string_bytes out.new ≡ string_bytes out.old ++ stripe_line stripe code level m of) }
{
    push_head(out, stripe, code, level)?;
    push_margin(out, missing.margin_in(code))?;
    push_set(out, code, missing)?;
    push_set(out, code, homeless_of(code, homes))?;
    push_homes(out, code, homes)?;
    out.push_str("\n")?;
    Ok(())
}

/// Adds the first three fields of a row, with a comma behind each.
fn push_head(out: &mut String, stripe: StripeNo, code: Code, level: Level) -> Result<(), AllocError>
    ensures { OnOk result (string_bytes out.new ≡ string_bytes out.old ++ (decimal stripe.value ++ codes "," ++ code_name code ++ codes "," ++ level_text level ++ codes ",")) }
{
    let number = stripe.value;
    let code_name = code.name();
    let level_name = level_word(level);
    write!(out, "{number},{code_name},{level_name},")
}

/// Adds a set of fragments as two fields.
fn push_set(out: &mut String, code: Code, set: LossMask) -> Result<(), AllocError>
    ensures { OnOk result (string_bytes out.new ≡ string_bytes out.old ++ (codes "," ++ hex_field set.bits ++ codes "," ++ fragments_field (members_of code (bits_set set.bits)))) }
{
    out.push_str(",")?;
    push_mask(out, set)?;
    out.push_str(",")?;
    push_members(out, code, set)
}

/// Adds a field for the home of each fragment number.
fn push_homes(
    out: &mut String,
    code: Code,
    homes: &[Option<Seat>; FRAGMENTS],
) -> Result<(), AllocError>
    ensures { OnOk result (string_bytes out.new ≡ string_bytes out.old ++ flat_map (λ f. codes "," ++ home_field code f (get_or homes.now f.value None)) all_fragments) }
{
    for fragment in Fragment::all() {
        push_home(out, code, fragment, homes[fragment.value as usize])?;
    }
    Ok(())
}

/// Adds a home; a dash for a fragment without one, and nothing for a fragment that the code lacks.
fn push_home(
    out: &mut String,
    code: Code,
    fragment: Fragment,
    home: Option<Seat>,
) -> Result<(), AllocError>
    ensures { OnOk result (string_bytes out.new ≡ string_bytes out.old ++ (codes "," ++ home_field code fragment home)) }
{
    match home {
        Some(seat) => {
            let node = seat.node.value;
            let slot = seat.slot;
            write!(out, ",{node}:{slot}")
        }
        None => {
            if fragment.value < code.fragments() {
                out.push_str(",-")
            } else {
                out.push_str(",")
            }
        }
    }
}
