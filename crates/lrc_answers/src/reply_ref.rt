ghost use Rattle.std.specs.Prelude.{◌≡◌};
ghost use Rattle.lrc_answers.specs.Answers.{lent};

use lrc_code::{FRAGMENTS, NARROW_FRAGMENTS};
use lrc_rules::{Kind, Lease, Refusal, Reply, Seat};

/// A reply whose seats and lease are borrowed.
#[derive(Clone, Copy)]
pub enum ReplyRef<'a> {
    Placed(&'a [Seat; FRAGMENTS]),
    Placed6(&'a [Seat; NARROW_FRAGMENTS]),
    Dropped,
    Granted(&'a Lease, &'a Kind),
    Idle,
    Ended,
    Changed,
    Refused(Refusal),
    Ticked { clock: u32, ended: u32 },
}

impl<'a> ReplyRef<'a> {
    /// Borrows a reply.
    #[inline(always)] // so that the caller's match is the only one
    pub fn of(reply: &'a Reply) -> ReplyRef<'a>
        ensures { lent result ≡ reply.now }
    {
        match reply {
            Reply::Placed(seats) => ReplyRef::Placed(seats),
            Reply::Placed6(seats) => ReplyRef::Placed6(seats),
            Reply::Dropped => ReplyRef::Dropped,
            Reply::Granted(lease, kind) => ReplyRef::Granted(lease, kind),
            Reply::Idle => ReplyRef::Idle,
            Reply::Ended => ReplyRef::Ended,
            Reply::Changed => ReplyRef::Changed,
            Reply::Refused(refusal) => ReplyRef::Refused(*refusal),
            Reply::Ticked { clock, ended } => ReplyRef::Ticked {
                clock: *clock,
                ended: *ended,
            },
        }
    }

    /// Copies the reply.
    #[inline(always)] // so that the reply is built in its final location
    pub fn reply(&self) -> Reply
        ensures { result ≡ lent self.now }
    {
        match *self {
            ReplyRef::Placed(seats) => Reply::Placed(*seats),
            ReplyRef::Placed6(seats) => Reply::Placed6(*seats),
            ReplyRef::Dropped => Reply::Dropped,
            ReplyRef::Granted(lease, kind) => Reply::Granted(*lease, *kind),
            ReplyRef::Idle => Reply::Idle,
            ReplyRef::Ended => Reply::Ended,
            ReplyRef::Changed => Reply::Changed,
            ReplyRef::Refused(refusal) => Reply::Refused(refusal),
            ReplyRef::Ticked { clock, ended } => Reply::Ticked { clock, ended },
        }
    }
}
