//! Writes the text of an image.

ghost use Rattle.std.specs.Prelude.{◌≡◌, ◌∷◌, [], ◌++◌, OnOk, codes, decimal, map};
ghost use Rattle.lrc_image_text.specs.Lines.{Version, Before, Clock, Node, Stripe, Grants, Lease, lines_text};
ghost use Rattle.lrc_image_text.specs.Texts.{upgrading_lines, image_text};

use crate::row::push_rows;
use crate::word::push_number;
use lrc_code::UpgradeNo;
use lrc_images::Image;
use std::alloc::AllocError;

/// Adds the text of an image to a text.
pub fn push_image(out: &mut Vec<u8>, image: &Image) -> Result<(), AllocError>
    ensures { OnOk result (out.new.items ≡ out.old.items ++ image_text image.now) }
{
    push_head(out, image.before, image.clock)?;
    push_upgrading(out, image.upgrading)?;
    push_rows(out, image.nodes.as_slice())?;
    push_rows(out, image.stripes.as_slice())?;
    push_rows(out, image.grants.as_slice())?;
    push_rows(out, image.leases.as_slice())?;
    out.extend_from_slice(b"end\n")
}

/// Adds the first three lines.
fn push_head(out: &mut Vec<u8>, before: u64, clock: u32) -> Result<(), AllocError>
    ensures { OnOk result (out.new.items ≡ out.old.items ++ lines_text (Version ∷ Before before ∷ Clock clock ∷ [])) }
{
    out.extend_from_slice(b"image 1\n")?;
    push_number_line(out, b"before ", before)?;
    push_number_line(out, b"clock ", u64::from(clock))
}

/// Adds the line of the upgrade domain that is upgrading, if there is one.
fn push_upgrading(out: &mut Vec<u8>, upgrading: Option<UpgradeNo>) -> Result<(), AllocError>
    ensures { OnOk result (out.new.items ≡ out.old.items ++ lines_text (upgrading_lines upgrading)) }
{
    match upgrading {
        Some(domain) => push_number_line(out, b"upgrading ", u64::from(domain.value)),
        None => Ok(()),
    }
}

/// Adds a line of a word, which has its space, and a number.
fn push_number_line(out: &mut Vec<u8>, word: &[u8], number: u64) -> Result<(), AllocError>
    ensures { OnOk result (out.new.items ≡ out.old.items ++ (word.now ++ (decimal number ++ codes "\n"))) }
{
    out.extend_from_slice(word)?;
    push_number(out, number)?;
    out.extend_from_slice(b"\n")
}
