use lrc_code::{Code, FRAGMENTS, Fragment, NodeNo, SessionNo, StripeNo, UpgradeNo};
use lrc_rules::Mode;
use lrc_topology::Seat;

/// A node that is not both active and up.
#[derive(Clone, Copy, Debug, PartialEq, Eq)]
pub struct NodeRow {
    pub node: NodeNo,
    pub mode: Mode,
    pub is_down: bool,
}

/// A stripe with its code and the homes of its fragments, by fragment number.
#[derive(Clone, Copy, Debug, PartialEq, Eq)]
pub struct StripeRow {
    pub stripe: StripeNo,
    pub code: Code,
    pub homes: [Option<Seat>; FRAGMENTS],
}

/// The number of leases granted so far for each fragment of a stripe number, by fragment number. The store need not
/// have the stripe.
#[derive(Clone, Copy, Debug, PartialEq, Eq)]
pub struct GrantRow {
    pub stripe: StripeNo,
    pub granted: [u32; FRAGMENTS],
}

/// A live lease. Its epoch is the number of leases granted so far for its fragment.
#[derive(Clone, Copy, Debug, PartialEq, Eq)]
pub struct LeaseRow {
    pub stripe: StripeNo,
    pub fragment: Fragment,
    /// The session that holds the lease.
    pub holder: SessionNo,
    /// The seat that becomes the fragment's home.
    pub target: Seat,
    /// The clock at which the lease ends, if it has not ended before.
    pub expiry: u32,
}

/// A state of a store, and the number of leases granted before it.
#[derive(Drop)]
pub struct Image {
    /// The number of entries of the store before this state.
    pub before: u64,
    /// The number of ticks so far.
    pub clock: u32,
    /// The upgrade domain that is upgrading, if there is one.
    pub upgrading: Option<UpgradeNo>,
    /// The nodes that are not both active and up, in rising order of their numbers.
    pub nodes: Vec<NodeRow>,
    /// The stripes, in rising order.
    pub stripes: Vec<StripeRow>,
    /// The stripe numbers of which a lease was granted, in rising order.
    pub grants: Vec<GrantRow>,
    /// The live leases, in rising order of stripe and fragment.
    pub leases: Vec<LeaseRow>,
}
