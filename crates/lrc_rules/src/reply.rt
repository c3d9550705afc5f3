use crate::{Kind, Refusal};
use lrc_code::{FRAGMENTS, NARROW_FRAGMENTS};
use lrc_terms::Lease;
use lrc_topology::Seat;

/// The reply to a command.
#[derive(Clone, Copy, Debug, PartialEq, Eq)]
pub enum Reply {
    /// The homes of fragments 0 to 15 of a stripe of the code `Wide`.
    Placed([Seat; FRAGMENTS]),
    /// The homes of fragments 0 to 9 of a stripe of the code `Narrow`.
    Placed6([Seat; NARROW_FRAGMENTS]),
    Dropped,
    /// The new lease, and how its fragment is rebuilt.
    Granted(Lease, Kind),
    /// No fragment needs a lease that could be granted.
    Idle,
    /// The lease was ended.
    Ended,
    /// The node or the upgrade domain was changed.
    Changed,
    Refused(Refusal),
    /// The new clock, and the number of leases that ended at it, at most 65,536.
    Ticked { clock: u32, ended: u32 },
}
