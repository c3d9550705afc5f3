//! The lines of rows.

ghost use Rattle.std.specs.Prelude.{◌≡◌, ◌+◌, ◌≤◌, length};
ghost use Rattle.lrc_image_text.specs.Texts.{upgrading_lines, head_line, row_line};

use lrc_code::UpgradeNo;
use lrc_images::Cause;

/// Returns the number of the line, counted from 1, at the position of a cause: that of a row, or
/// that of a number of the head at position 0. The text is that of an image with this upgrading
/// domain or none. A `u128`, since a position is any `usize`.
pub fn row_line(upgrading: Option<UpgradeNo>, position: usize, cause: Cause) -> u128
    ensures value { result ≡ row_line upgrading position cause }
    ensures bound { result ≤ position + 4 }
{
    if position == 0 {
        return head_line(cause);
    }
    count_first_lines(upgrading) as u128 + position as u128
}

/// Returns the line of the number that a cause is of.
fn head_line(cause: Cause) -> u128
    ensures value { result ≡ head_line cause }
    ensures bound { result ≤ 4 }
{
    match cause {
        Cause::TooManyEntries => 2,
        Cause::TooManyTicks => 3,
        _ => 4,
    }
}

/// Returns the number of lines before those of rows.
pub(crate) fn count_first_lines(upgrading: Option<UpgradeNo>) -> usize
    ensures value { result ≡ 3 + length (upgrading_lines upgrading) }
    ensures few { result ≤ 4 }
{
    if upgrading.is_some() { 4 } else { 3 }
}
