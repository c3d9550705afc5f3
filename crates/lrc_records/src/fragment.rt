ghost use Rattle.std.specs.Prelude.{◌≡◌};
ghost use Rattle.lrc_records.specs.Shown.{encoded_fragment};

use lrc_code::{Fragment, StripeNo};

/// A fragment of a stripe.
#[repr(C)]
#[derive(Clone, Copy)]
pub struct LrcFragment {
    pub stripe: u16,
    pub fragment: u8,
    pub reserved: u8,
}

impl LrcFragment {
    /// The record of a fragment of a stripe.
    pub fn of(place: (StripeNo, Fragment)) -> LrcFragment
        ensures { result ≡ encoded_fragment place }
    {
        let (stripe, fragment) = place;
        LrcFragment {
            stripe: stripe.value,
            fragment: fragment.value,
            reserved: 0,
        }
    }
}
