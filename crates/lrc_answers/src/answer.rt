ghost use Rattle.std.specs.Prelude.{◌≡◌, false, List, take, IsSome};
ghost use Rattle.lrc_code.specs.declared.numbers.StripeNo.{StripeNo};
ghost use Rattle.lrc_code.specs.declared.numbers.Fragment.{Fragment};
ghost use Rattle.lrc_code.specs.declared.numbers.SessionNo.{SessionNo};
ghost use Rattle.lrc_topology.specs.declared.NodeInfo.{NodeInfo};
ghost use Rattle.lrc_rules.specs.declared.command.Command.{Command};
ghost use Rattle.lrc_rules.specs.declared.entry.Entry.{Entry};
ghost use Rattle.lrc_rules.specs.States.{State};
ghost use Rattle.lrc_answers.specs.Answers.{told, lent};
ghost use Rattle.lrc_rules.specs.Leases.{is_grant};
ghost use Rattle.lrc_rules.specs.Steps.{step};

use crate::ReplyRef;
use lrc_code::{FRAGMENTS, NARROW_FRAGMENTS, NodeNo};
use lrc_rules::{Kind, Lease, Refusal, Reply, Seat};

/// A seat that is to be overwritten.
pub const NO_SEAT: Seat = Seat {
    node: NodeNo { value: 0 },
    slot: 0,
};

/// A reply as the history keeps it: the seats of a new stripe are in a box, so that an entry is small.
#[derive(Drop)]
pub enum Answer {
    Placed(Box<[Seat; FRAGMENTS]>),
    /// The seats of the stripe are the first ten.
    Placed6(Box<[Seat; FRAGMENTS]>),
    Dropped,
    Granted(Lease, Kind),
    Idle,
    Ended,
    Changed,
    Refused(Refusal),
    Ticked { clock: u32, ended: u32 },
}

impl Answer {
    /// The answer that stands for a reply. The seats of a reply are put into the box
    /// `room`, which must be there.
    pub fn of(reply: &Reply, room: &mut Option<Box<[Seat; FRAGMENTS]>>) -> Answer
        requires { IsSome room.old }
        ensures { told result ≡ reply.now }
    {
        match reply {
            Reply::Placed(seats) => {
                let mut kept = room.take().unwrap();
                *kept = *seats;
                Answer::Placed(kept)
            }
            Reply::Placed6(seats) => {
                let mut kept = room.take().unwrap();
                put_first(&mut *kept, seats);
                Answer::Placed6(kept)
            }
            Reply::Dropped => Answer::Dropped,
            Reply::Granted(lease, kind) => Answer::Granted(*lease, *kind),
            Reply::Idle => Answer::Idle,
            Reply::Ended => Answer::Ended,
            Reply::Changed => Answer::Changed,
            Reply::Refused(refusal) => Answer::Refused(*refusal),
            Reply::Ticked { clock, ended } => Answer::Ticked {
                clock: *clock,
                ended: *ended,
            },
        }
    }

    /// Whether the state may change by a command with this reply.
    pub fn changes(&self) -> bool
        ensures same { result ≡ false → (nodes : List NodeInfo) (past : List Entry) (st : State) (session : SessionNo) (command : Command)
            → (step nodes past st session command).0 ≡ told self.now → (step nodes past st session command).1 ≡ st }
        ensures none { result ≡ false → (s : StripeNo) (f : Fragment) → is_grant s f (told self.now) ≡ false }
    {
        match self {
            Answer::Idle | Answer::Refused(_) => false,
            _ => true,
        }
    }

    /// The reply that it stands for, borrowed.
    #[inline(always)] // so that the caller's match is the only one
    pub fn reply_ref(&self) -> ReplyRef<'_>
        ensures { lent result ≡ told self.now }
    {
        match self {
            Answer::Placed(seats) => ReplyRef::Placed(&**seats),
            Answer::Placed6(seats) => ReplyRef::Placed6(first_ten(&**seats)),
            Answer::Dropped => ReplyRef::Dropped,
            Answer::Granted(lease, kind) => ReplyRef::Granted(lease, kind),
            Answer::Idle => ReplyRef::Idle,
            Answer::Ended => ReplyRef::Ended,
            Answer::Changed => ReplyRef::Changed,
            Answer::Refused(refusal) => ReplyRef::Refused(*refusal),
            Answer::Ticked { clock, ended } => ReplyRef::Ticked {
                clock: *clock,
                ended: *ended,
            },
        }
    }
}

/// Overwrites the first ten of sixteen seats.
fn put_first(kept: &mut [Seat; FRAGMENTS], seats: &[Seat; NARROW_FRAGMENTS])
    ensures { take 10 kept.new ≡ seats.now }
{
    kept[..NARROW_FRAGMENTS].copy_from_slice(seats);
}

/// The first ten of sixteen seats.
fn first_ten(seats: &[Seat; FRAGMENTS]) -> &[Seat; NARROW_FRAGMENTS]
    ensures { result.now ≡ take 10 seats.now }
{
    <&[Seat; NARROW_FRAGMENTS]>::try_from(&seats[..NARROW_FRAGMENTS]).unwrap()
}
