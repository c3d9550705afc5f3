ghost use Rattle.std.specs.Prelude.{◌≡◌};
ghost use Rattle.lrc_forecast.specs.Forecasts.{is_unrecoverable, is_harmed};

use lrc_book::Level;
use lrc_code::{Code, LossMask, StripeNo};

/// What happens to nodes.
#[derive(Clone, Copy, Debug, PartialEq, Eq)]
pub enum Outage {
    /// They go offline, with what is on them.
    Stop,
    /// They are lost, with all that is on them.
    Lose,
}

/// What becomes of a stripe.
#[derive(Clone, Copy, Debug, PartialEq, Eq)]
pub struct Outlook {
    pub stripe: StripeNo,
    pub code: Code,
    /// Its level now.
    pub before: Level,
    /// Its level then.
    pub after: Level,
    /// The fragments that are missing then.
    pub missing: LossMask,
    /// Those of them that are not missing now.
    pub newly_missing: LossMask,
    /// How many live leases of the stripe end by the outage.
    pub leases_ended: u8,
    /// Whether a seat of the stripe, a home or the target of a live lease, is on one of the nodes.
    pub has_seat_on_any: bool,
}

impl Outlook {
    /// Whether the outage harms the stripe: it is unavailable or lost then, and it is neither now, or a seat of it is on one of
    /// the nodes. While the nodes stay away, a stripe that is not harmed comes back exactly if it comes back without the outage.
    pub fn is_harmed(self) -> bool
        ensures { result ≡ is_harmed self }
    {
        is_unrecoverable(self.after) && (!is_unrecoverable(self.before) || self.has_seat_on_any)
    }
}

/// Whether more fragments are missing than can be rebuilt from the others.
fn is_unrecoverable(level: Level) -> bool
    ensures { result ≡ is_unrecoverable level }
{
    match level {
        Level::Unavailable | Level::Lost => true,
        Level::Whole | Level::AtRisk(_) => false,
    }
}
