use lrc_code::{Fragment, NodeNo, StripeNo, UpgradeNo};

/// What a session can ask for. A command that breaks a rule is refused and changes nothing.
#[derive(Clone, Copy, Debug, PartialEq, Eq)]
pub enum Command {
    /// Places a new stripe of the code `Wide`: each of its 16 fragments gets a home.
    Place(StripeNo),
    /// Places a new stripe of the code `Narrow`: each of its 10 fragments gets a home.
    Place6(StripeNo),
    /// Removes a stripe, with its homes and leases.
    Drop(StripeNo),
    /// Asks for a lease of a fragment that has no home, or has its home on a draining node. The lease permits the
    /// session to rebuild or copy the fragment onto a seat that the store chooses.
    Lease(StripeNo, Fragment),
    /// Asks for a lease of the most urgent fragment whose lease would be granted.
    Next,
    /// Reports that the fragment is on the target of the session's lease with this epoch. The target becomes its
    /// home.
    Done(StripeNo, Fragment, u32),
    /// Gives the session's lease with this epoch back.
    Abandon(StripeNo, Fragment, u32),
    /// Ends the lease of a fragment, whoever holds it.
    Revoke(StripeNo, Fragment),
    /// Removes a node from the store with the homes on it. Ends each lease with its target, or its fragment's home, on
    /// the node. `Join` brings the node back.
    Fail(NodeNo),
    /// Reports that a node cannot be reached for now. Its homes stay.
    Down(NodeNo),
    /// Reports that a node that was down can be reached again.
    Up(NodeNo),
    /// Stops an active node from getting further seats, so that its homes can be moved away. This takes no node
    /// offline.
    Drain(NodeNo),
    /// Makes a draining node active again. Live leases stay.
    Undrain(NodeNo),
    /// Removes a draining node without held seats from the store. `Join` brings it back.
    Retire(NodeNo),
    /// Brings a node that is gone back into the store, without homes.
    Join(NodeNo),
    /// Takes all nodes of an upgrade domain offline. Refused if a stripe would cease to be recoverable.
    Upgrade(UpgradeNo),
    /// Reports that the upgrade of the domain is over and its nodes can be reached again.
    Upgraded(UpgradeNo),
    /// Advances the clock by one tick. Ends the leases whose `expiry` is the new clock.
    Tick,
}
