ghost use Rattle.std.specs.Prelude.{◌≤◌, length, map};
ghost use Rattle.lrc_records.specs.Shown.{encoded_risk};
ghost use Rattle.lrc_walks.specs.WalkRows.{AreFirstRows};

use lrc_book::Level;
use lrc_code::StripeNo;
use lrc_records::LrcRisk;

/// Writes the stripes at risk into the first rows.
pub fn put_risk(risk: &[(StripeNo, Level)], rows: &mut [LrcRisk])
    requires room { length risk.now ≤ length rows.old }
    ensures { AreFirstRows (map encoded_risk risk.now) (length risk.now) rows.old rows.new }
{
    for (i, row) in risk.iter().enumerate() {
        rows[i] = LrcRisk::of(*row);
    }
}
