//! Fields that several tables share.

ghost use Rattle.std.specs.Prelude.{◌≡◌, ◌&&◌, ◌++◌, if◌then◌else◌, [], codes, decimal, string_bytes, OnOk};
ghost use Rattle.lrc_code.specs.Codes.{has_fragment};
ghost use Rattle.lrc_code.specs.Losses.{bits_set};
ghost use Rattle.lrc_text.specs.Tables.{margin_field};
ghost use Rattle.lrc_show.specs.Listed.{hex_field, fragments_field, members_of};

use lrc_code::{Code, Fragment, LossMask};
use std::alloc::AllocError;

/// Adds a margin, or a dash where there is none.
pub(crate) fn push_margin(out: &mut String, margin: Option<u8>) -> Result<(), AllocError>
    ensures { OnOk result (string_bytes out.new ≡ string_bytes out.old ++ margin_field margin) }
{
    match margin {
        Some(margin) => write!(out, "{margin}"),
        None => out.push_str("-"),
    }
}

/// Adds a set of fragments as a mask that no program takes for a number.
pub(crate) fn push_mask(out: &mut String, mask: LossMask) -> Result<(), AllocError>
    ensures { OnOk result (string_bytes out.new ≡ string_bytes out.old ++ hex_field mask.bits) }
{
    let bits = mask.bits();
    write!(out, "0x{bits:04x}")
}

/// Adds the numbers of these fragments, with a space between.
pub(crate) fn push_fragments(out: &mut String, fragments: &[Fragment]) -> Result<(), AllocError>
    ensures { OnOk result (string_bytes out.new ≡ string_bytes out.old ++ fragments_field fragments.now) }
{
    let mut is_first = true;
    for fragment in fragments {
        push_number(out, fragment.value, is_first)?;
        is_first = false;
    }
    Ok(())
}

/// Adds the numbers of the fragments of a set, with a space between.
pub(crate) fn push_members(out: &mut String, code: Code, mask: LossMask) -> Result<(), AllocError>
    ensures { OnOk result (string_bytes out.new ≡ string_bytes out.old ++ fragments_field (members_of code (bits_set mask.bits))) }
{
    let mut is_first = true;
    for fragment in Fragment::all() {
        if is_member(code, mask, fragment) {
            push_number(out, fragment.value, is_first)?;
            is_first = false;
        }
    }
    Ok(())
}

/// Adds a number, with a space before it unless it is the first.
fn push_number(out: &mut String, number: u8, is_first: bool) -> Result<(), AllocError>
    ensures { OnOk result (string_bytes out.new ≡ string_bytes out.old ++ ((if is_first then [] else codes " ") ++ decimal number)) }
{
    if is_first {
        write!(out, "{number}")
    } else {
        write!(out, " {number}")
    }
}

/// Whether the code has the fragment, and it is in the set.
fn is_member(code: Code, mask: LossMask, fragment: Fragment) -> bool
    ensures { result ≡ (has_fragment code fragment.value && bits_set mask.bits fragment.value) }
{
    fragment.value < code.fragments() && mask.contains(fragment)
}
