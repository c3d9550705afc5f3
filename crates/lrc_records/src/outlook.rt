ghost use Rattle.std.specs.Prelude.{◌≡◌};
ghost use Rattle.lrc_records.specs.Shown.{encoded_outlook};

use crate::{LrcLevel, code_number, flag};
use lrc_code::{Code, LossMask, StripeNo};
use lrc_rules::Level;

/// What becomes of a stripe: the fragments that are missing then, and those of them that are not missing now, of which
/// fragment f is bit f; its code; whether it is harmed; how many leases of it end; and its level before, and after.
#[repr(C)]
#[derive(Clone, Copy)]
pub struct LrcOutlook {
    pub stripe: u16,
    pub missing: u16,
    pub newly_missing: u16,
    pub code: u8,
    pub is_harmed: u8,
    pub leases_ended: u8,
    pub reserved: [u8; 3],
    pub before: LrcLevel,
    pub after: LrcLevel,
}

impl LrcOutlook {
    /// The record of what becomes of a stripe, from its missing fragments, those of them that are not missing now, whether
    /// it is harmed, the number of its leases that end, and its levels before and after.
    pub fn of(
        stripe: StripeNo,
        code: Code,
        missing: LossMask,
        newly_missing: LossMask,
        is_harmed: bool,
        leases_ended: u8,
        levels: (Level, Level),
    ) -> LrcOutlook
        ensures { result ≡ encoded_outlook stripe code missing newly_missing is_harmed leases_ended levels }
    {
        let (before, after) = levels;
        LrcOutlook {
            stripe: stripe.value,
            missing: missing.bits,
            newly_missing: newly_missing.bits,
            code: code_number(code),
            is_harmed: flag(is_harmed),
            leases_ended,
            reserved: [0; 3],
            before: LrcLevel::of(before),
            after: LrcLevel::of(after),
        }
    }
}
