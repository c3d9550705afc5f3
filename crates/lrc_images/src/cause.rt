ghost use Rattle.std.specs.Prelude.{◌≡◌};
ghost use Rattle.lrc_images.specs.CauseNumbers.{row_cause_number};

/// Why an image is not the state of a store with these nodes. The numbers are those in the text of
/// a refusal and in the C header.
#[derive(Clone, Copy, Debug, PartialEq, Eq)]
pub enum Cause {
    /// No node is in the upgrade domain that is upgrading.
    UnknownDomain = 1,
    /// The number of entries before the image is too large to leave room for a history.
    TooManyEntries = 2,
    /// The number of ticks is too large to leave room for a history.
    TooManyTicks = 3,
    /// The row does not come after every earlier row of its list.
    OutOfOrder = 4,
    /// The row says nothing: its node is active and up, or all its counts are 0.
    SaysNothing = 5,
    /// The store has no such node.
    UnknownNode = 6,
    /// The node is gone and down.
    GoneAndDown = 7,
    /// The code of the stripe lacks the fragment.
    UnknownFragment = 8,
    /// The node has no such slot.
    UnknownSlot = 9,
    /// The node of the seat is gone.
    NodeGone = 10,
    /// The seat is already held.
    SeatTaken = 11,
    /// The node of the seat is in a domain that another fragment of the stripe rules out.
    NotLawful = 12,
    /// The number of leases granted for a fragment is too large.
    TooManyGrants = 13,
    /// The image has no such stripe.
    UnknownStripe = 14,
    /// No lease of the fragment was granted.
    NeverGranted = 15,
    /// The lease has expired, or expires later than within a term.
    WrongExpiry = 16,
}

impl Cause {
    /// Returns the number of the cause, from 1 to 16.
    pub fn number(self) -> u32
        ensures value { result ≡ row_cause_number self }
    {
        self as u32
    }
}
