ghost use Rattle.std.specs.Prelude.{◌≡◌};
ghost use Rattle.lrc_changes.specs.Changes.{encoded_change, lease_record};

use crate::Former;
use lrc_records::{LrcHome, LrcLease};
use lrc_rules::{Lease, Seat};

/// A fragment whose home or lease is another one after a call: both before the call, and after it. `was_leased` and
/// `is_leased` are 1 where it had or has a lease; else they are 0, and so is all of the lease.
#[repr(C)]
#[derive(Clone, Copy)]
pub struct LrcChange {
    pub stripe: u16,
    pub fragment: u8,
    pub was_leased: u8,
    pub is_leased: u8,
    pub reserved: [u8; 3],
    pub home_before: LrcHome,
    pub home_after: LrcHome,
    pub lease_before: LrcLease,
    pub lease_after: LrcLease,
}

impl LrcChange {
    /// The record of a fragment that was as `former` says, and has this home and this lease now.
    pub(crate) fn of(former: &Former, home: Option<Seat>, lease: Option<Lease>) -> LrcChange
        ensures { result ≡ encoded_change former.now home lease }
    {
        LrcChange {
            stripe: former.stripe.value,
            fragment: former.fragment.value,
            was_leased: u8::from(former.lease.is_some()),
            is_leased: u8::from(lease.is_some()),
            reserved: [0; 3],
            home_before: LrcHome::of(former.home),
            home_after: LrcHome::of(home),
            lease_before: lease_record(former.lease),
            lease_after: lease_record(lease),
        }
    }
}

/// The record of a lease; all is 0 without one.
fn lease_record(lease: Option<Lease>) -> LrcLease
    ensures { result ≡ lease_record lease }
{
    match lease {
        Some(lease) => LrcLease::of(&lease),
        None => LrcLease::NONE,
    }
}
