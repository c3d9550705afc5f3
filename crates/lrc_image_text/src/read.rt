//! Reads the text of an image.

ghost use Rattle.std.specs.Prelude.{◌≡◌, ◌≢◌, ℕ, ◌^◌, ◌<◌, ◌∷◌, ◌++◌, List, length, codes, decimal, IfOk, IfErr, IfSome, IfNone};
ghost use Rattle.lrc_image_text.specs.Texts.{begun_lines, image_text, IsWritten, IsBadLine, IsHead, IsRefused};
ghost use Rattle.lrc_image_text.specs.Fronts.{IsBody, StartsWithRows, StartsWithUpgrading, IsRowRead};
ghost use Rattle.lrc_image_text.specs.declared.error.ImageTextError.TheVariants.{OutOfMemory};

use crate::ImageTextError;
use crate::line::count_first_lines;
use crate::number::{long_number_to_end, number_behind};
use crate::row::Row;
use crate::word::COUNT_BOUND;
use lrc_code::UpgradeNo;
use lrc_front::behind;
use lrc_images::Image;
use std::alloc::Global;

/// The bound of the numbers of upgrade domains.
const UPGRADE_BOUND: u64 = 256;

/// Reads the text of an image. A text is read exactly if `push_image` writes it for an image in
/// which no node row is both active and up, and no stripe has a home of a fragment that its code
/// lacks.
///
/// # Errors
///
/// `BadLine` with the number of the first line that may not come where it stands, and
/// `OutOfMemory` only if the first three lines can be read.
pub fn read_image(alloc: Global, text: &[u8]) -> Result<Image, ImageTextError>
    ensures read { IfOk result (λ i. IsWritten i × (text.now ≡ image_text i)) }
    ensures refused { IfErr result (IsRefused text.now) }
{
    let (before, clock, rest) = match read_head(text) {
        Ok(head) => head,
        Err(line) => return Err(ImageTextError::BadLine(line)),
    };
    let (image, rest) = read_body(alloc, before, clock, rest)?;
    let lines = count_lines(&image);
    match behind(rest, b"end\n") {
        Some(rest) => {
            if rest.is_empty() {
                Ok(image)
            } else {
                Err(ImageTextError::BadLine(lines + 2))
            }
        }
        None => Err(ImageTextError::BadLine(lines + 1)),
    }
}

/// Returns the number of an image's lines but the last.
fn count_lines(image: &Image) -> u64
    requires { length (begun_lines image.now) < 2 ^ 63 }
    ensures { result ≡ length (begun_lines image.now) }
{
    let rows = image.nodes.len() + image.stripes.len() + image.grants.len() + image.leases.len();
    (count_first_lines(image.upgrading) + rows) as u64
}

// ---- the first lines

/// Reads the first three lines. Returns the number of entries before the image, its clock and the
/// rest of the text.
///
/// # Errors
///
/// The number of the bad line.
fn read_head(text: &[u8]) -> Result<(u64, u32, &[u8]), u64>
    ensures head { IfOk result (λ r. IsHead text.now r.0 r.1 r.2.now) }
    ensures bad { IfErr result (IsBadLine text.now) }
{
    let Some(rest) = behind(text, b"image 1\n") else {
        return Err(1);
    };
    let Some((before, rest)) = before_in_front(rest) else {
        return Err(2);
    };
    let Some((clock, rest)) = number_behind(rest, b"clock ", COUNT_BOUND, b'\n') else {
        return Err(3);
    };
    Ok((before, clock as u32, rest))
}

/// Reads the line of the number of entries before the image.
fn before_in_front(text: &[u8]) -> Option<(u64, &[u8])>
    ensures some { IfSome result (λ r. (r.0 < 2 ^ 64) × (text.now ≡ codes "before " ++ (decimal r.0 ++ 10 ∷ r.1.now))) }
    ensures none { IfNone result ((n : ℕ) (rest : List ℕ) → n < 2 ^ 64 → text.now ≢ codes "before " ++ (decimal n ++ 10 ∷ rest)) }
{
    match behind(text, b"before ") {
        Some(rest) => long_number_to_end(rest),
        None => None,
    }
}

// ---- the other lines

/// Reads the lines behind the first three and before the last one. Returns the image with these
/// numbers, and the rest of the text.
fn read_body(
    alloc: Global,
    before: u64,
    clock: u32,
    text: &[u8],
) -> Result<(Image, &[u8]), ImageTextError>
    ensures body { IfOk result (λ r. IsBody before clock text.now r.0 r.1.now) }
    ensures err { IfErr result (λ e. e ≡ OutOfMemory) }
{
    let (upgrading, rest) = read_upgrading(text);
    let (nodes, rest) = read_rows(alloc, rest)?;
    let (stripes, rest) = read_rows(alloc, rest)?;
    let (grants, rest) = read_rows(alloc, rest)?;
    let (leases, rest) = read_rows(alloc, rest)?;
    let image = Image {
        before,
        clock,
        upgrading,
        nodes,
        stripes,
        grants,
        leases,
    };
    Ok((image, rest))
}

/// Reads the line of the upgrade domain that is upgrading, if there is one.
fn read_upgrading(text: &[u8]) -> (Option<UpgradeNo>, &[u8])
    ensures { StartsWithUpgrading text.now result.0 result.1.now }
{
    match number_behind(text, b"upgrading ", UPGRADE_BOUND, b'\n') {
        Some((number, rest)) => (
            Some(UpgradeNo {
                value: number as u8,
            }),
            rest,
        ),
        None => (None, text),
    }
}

/// Reads the lines of all rows at the start of a text. Returns the rows and the rest of the text.
fn read_rows<R: Row>(alloc: Global, text: &[u8]) -> Result<(Vec<R>, &[u8]), ImageTextError>
    ensures rows { IfOk result (λ r. StartsWithRows R.line text.now r.0.items r.1.now) }
    ensures err { IfErr result (λ e. e ≡ OutOfMemory) }
{
    let mut rows = Vec::new(alloc);
    let mut left = text;
    while let Some(rest) = read_row(&mut rows, left)? {
        left = rest;
    }
    Ok((rows, left))
}

/// Reads the line of a row at the start of a text, and adds the row. Returns the rest of the text,
/// or `None` if the text does not start so.
fn read_row<'a, R: Row>(
    rows: &mut Vec<R>,
    text: &'a [u8],
) -> Result<Option<&'a [u8]>, ImageTextError>
    ensures row { IfOk result (IsRowRead R.line text.now rows.old.items rows.new.items) }
    ensures err { IfErr result (λ e. e ≡ OutOfMemory) }
{
    match R::in_front(text) {
        Some((row, rest)) => {
            rows.push(row)?;
            Ok(Some(rest))
        }
        None => Ok(None),
    }
}
