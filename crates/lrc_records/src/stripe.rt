ghost use Rattle.std.specs.Prelude.{◌≡◌};
ghost use Rattle.lrc_records.specs.Shown.{encoded_stripe};

use crate::{LrcLevel, code_number};
use lrc_code::{Code, LossMask, StripeNo};
use lrc_rules::Level;

/// A stripe with its code, its missing fragments, of which fragment f is bit f, and its level.
#[repr(C)]
#[derive(Clone, Copy)]
pub struct LrcStripe {
    pub stripe: u16,
    pub missing: u16,
    pub code: u8,
    pub reserved: [u8; 3],
    pub level: LrcLevel,
}

impl LrcStripe {
    /// The record of a stripe.
    pub fn of(stripe: StripeNo, code: Code, missing: LossMask, level: Level) -> LrcStripe
        ensures { result ≡ encoded_stripe stripe code missing level }
    {
        LrcStripe {
            stripe: stripe.value,
            missing: missing.bits,
            code: code_number(code),
            reserved: [0; 3],
            level: LrcLevel::of(level),
        }
    }
}
