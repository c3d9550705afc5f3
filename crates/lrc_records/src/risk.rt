ghost use Rattle.std.specs.Prelude.{◌≡◌};
ghost use Rattle.lrc_records.specs.Shown.{encoded_risk};

use crate::LrcLevel;
use lrc_code::StripeNo;
use lrc_rules::Level;

/// A stripe that is not whole, and its level.
#[repr(C)]
#[derive(Clone, Copy)]
pub struct LrcRisk {
    pub stripe: u16,
    pub reserved: [u8; 2],
    pub level: LrcLevel,
}

impl LrcRisk {
    /// The record of a stripe with its level.
    pub fn of(row: (StripeNo, Level)) -> LrcRisk
        ensures { result ≡ encoded_risk row }
    {
        let (stripe, level) = row;
        LrcRisk {
            stripe: stripe.value,
            reserved: [0; 2],
            level: LrcLevel::of(level),
        }
    }
}
