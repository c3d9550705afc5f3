ghost use Rattle.std.specs.Prelude.{◌≡◌, ◌≢◌, None, IfSome};
ghost use Rattle.lrc_terms.specs.declared.lease.Lease.{Lease as AnyLease};
ghost use Rattle.lrc_records.specs.Replies.{encoded_lease, lease_in_reply};

use crate::LrcSeat;
use lrc_code::{Fragment, SessionNo, StripeNo};
use lrc_rules::Lease;

/// A lease of a fragment of a stripe. The holder is a session, the target the seat that the fragment gets. The expiry is the
/// clock at which the lease ends, or 0 in a reply.
#[repr(C)]
#[derive(Clone, Copy, PartialEq, Eq)]
pub struct LrcLease {
    pub stripe: u16,
    pub fragment: u8,
    pub holder: u8,
    pub target: LrcSeat,
    pub epoch: u32,
    pub expiry: u32,
}

impl LrcLease {
    /// No lease: all is 0.
    pub const NONE: LrcLease = LrcLease {
        stripe: 0,
        fragment: 0,
        holder: 0,
        target: LrcSeat::NONE,
        epoch: 0,
        expiry: 0,
    };

    /// The record of a live lease, with its expiry.
    pub fn of(lease: &Lease) -> LrcLease
        ensures { result ≡ encoded_lease lease.now }
    {
        LrcLease {
            stripe: lease.stripe.value,
            fragment: lease.fragment.value,
            holder: lease.holder.value,
            target: LrcSeat::of(lease.target),
            epoch: lease.epoch,
            expiry: lease.expiry,
        }
    }

    /// A lease in a reply. Its expiry is 0, as in entries that were saved before leases had one.
    pub(crate) fn in_reply(lease: &Lease) -> LrcLease
        ensures { result ≡ lease_in_reply lease.now }
    {
        LrcLease {
            expiry: 0,
            ..LrcLease::of(lease)
        }
    }

    /// A lease of which this is the record; `None` if a number is out of range.
    pub(crate) fn read(&self) -> Option<Lease>
        ensures some { IfSome result (λ lease. encoded_lease lease ≡ self.now) }
        ensures none { (result ≡ None) → (lease : AnyLease) → encoded_lease lease ≢ self.now }
    {
        Some(Lease {
            stripe: StripeNo::new(self.stripe)?,
            fragment: Fragment::new(self.fragment)?,
            holder: SessionNo::new(self.holder)?,
            target: self.target.seat(),
            epoch: self.epoch,
            expiry: self.expiry,
        })
    }
}
