ghost use Rattle.std.specs.Prelude.{◌≡◌, ◌≢◌, ◌↔◌, true, None, IfSome, IsSomeAnd};
ghost use Rattle.lrc_rules.specs.declared.refusal.Refusal.{Refusal as AnyRefusal};
ghost use Rattle.lrc_rules.specs.declared.reply.Reply.{Reply as AnyReply};
ghost use Rattle.lrc_answers.specs.Answers.{lent};
ghost use Rattle.lrc_records.specs.Replies.{IsRefusalInRange, IsReplyInRange, encoded_refusal, encoded_reply};

use crate::repair::{read_repair, repair_of};
use crate::{LrcLease, LrcSeat};
use lrc_answers::ReplyRef;
use lrc_code::{Fragment, NodeNo, SessionNo, StripeNo, UpgradeNo};
use lrc_rules::{Refusal, Reply};

/// A reply. `set` has the kinds, and `repair_of` those of a repair. A field that the kind does not use is 0.
#[repr(C)]
#[derive(Clone, Copy, PartialEq, Eq)]
pub struct LrcReply {
    pub kind: u8,
    pub refusal: u8,
    pub repair: u8,
    pub sources: [u8; 6],
    pub reserved: [u8; 3],
    pub detail: u32,
    pub clock: u32,
    pub ended: u32,
    pub reserved_number: u32,
    pub lease: LrcLease,
    pub seats: [LrcSeat; 16],
}

const BLANK: LrcReply = LrcReply {
    kind: 0,
    refusal: 0,
    repair: 0,
    sources: [0; 6],
    reserved: [0; 3],
    detail: 0,
    clock: 0,
    ended: 0,
    reserved_number: 0,
    lease: LrcLease::NONE,
    seats: [LrcSeat::NONE; 16],
};

impl LrcReply {
    /// The record of a reply.
    pub fn of(reply: &Reply) -> LrcReply
        ensures { result ≡ encoded_reply reply.now }
    {
        let mut encoded = BLANK;
        encoded.set(&ReplyRef::of(reply));
        encoded
    }

    /// Becomes the record of a reply, written in place from where the reply is kept: a copy of it takes as long as a small
    /// command.
    pub fn set(&mut self, reply: &ReplyRef<'_>)
        ensures { self.new ≡ encoded_reply (lent reply.now) }
    {
        *self = BLANK;
        match *reply {
            ReplyRef::Placed(seats) => {
                self.kind = 1;
                self.seats = LrcSeat::of_all(seats);
            }
            ReplyRef::Dropped => self.kind = 2,
            ReplyRef::Granted(lease, kind) => {
                self.kind = 3;
                self.lease = LrcLease::in_reply(lease);
                (self.repair, self.sources) = repair_of(kind);
            }
            ReplyRef::Idle => self.kind = 4,
            ReplyRef::Ended => self.kind = 5,
            ReplyRef::Changed => self.kind = 6,
            ReplyRef::Refused(refusal) => {
                self.kind = 7;
                (self.refusal, self.detail) = refusal_of(&refusal);
            }
            ReplyRef::Ticked { clock, ended } => {
                self.kind = 8;
                self.clock = clock;
                self.ended = ended;
            }
            ReplyRef::Placed6(seats) => {
                self.kind = 9;
                self.seats = LrcSeat::of_all(seats);
            }
        }
    }

    /// Returns whether this is the record of the reply, to the last byte.
    #[inline]
    pub fn is_of(&self, reply: &Reply) -> bool
        ensures { (result ≡ true) ↔ (self.now ≡ encoded_reply reply.now) }
    {
        LrcReply::of(reply) == *self
    }

    /// A reply of which this is the record; `None` if it is that of none: a number is out of range, or a field that the kind
    /// does not use is not 0. A lease may have any expiry, which no record of a reply tells.
    pub fn read(&self) -> Option<Reply>
        ensures some { IfSome result (λ reply. IsReplyInRange reply × (encoded_reply reply ≡ self.now)) }
        ensures none { (result ≡ None) → (reply : AnyReply) → IsReplyInRange reply → encoded_reply reply ≢ self.now }
    {
        let reply = self.read_used()?;
        if self.is_of(&reply) {
            Some(reply)
        } else {
            None
        }
    }

    /// The reply that the fields say which the kind uses.
    fn read_used(&self) -> Option<Reply>
        ensures range { IfSome result IsReplyInRange }
        ensures read { (reply : AnyReply) → IsReplyInRange reply → encoded_reply reply ≡ self.now →
            IsSomeAnd result (λ read. encoded_reply read ≡ self.now) }
    {
        match self.kind {
            1 => Some(Reply::Placed(LrcSeat::first(&self.seats))),
            2 => Some(Reply::Dropped),
            3 => Some(Reply::Granted(self.lease.read()?, read_repair(self.repair, &self.sources)?)),
            4 => Some(Reply::Idle),
            5 => Some(Reply::Ended),
            6 => Some(Reply::Changed),
            7 => Some(Reply::Refused(read_refusal(self.refusal, self.detail)?)),
            8 => Some(Reply::Ticked {
                clock: self.clock,
                ended: self.ended,
            }),
            9 => Some(Reply::Placed6(LrcSeat::first(&self.seats))),
            _ => None,
        }
    }
}

/// The number of a refusal, and the number that it names, or 0.
fn refusal_of(refusal: &Refusal) -> (u8, u32)
    ensures { result ≡ encoded_refusal refusal.now }
{
    match *refusal {
        Refusal::UnknownStripe => (101, 0),
        Refusal::StripeExists => (102, 0),
        Refusal::NoLawfulNode(fragment) => (103, fragment.value as u32),
        Refusal::UnknownNode => (104, 0),
        Refusal::WrongMode => (105, 0),
        Refusal::UnknownDomain => (106, 0),
        Refusal::UpgradeRunning(domain) => (107, domain.value as u32),
        Refusal::NotUpgrading => (108, 0),
        Refusal::WouldLose(stripe) => (109, stripe.value as u32),
        Refusal::AlreadyLeased(epoch) => (110, epoch),
        Refusal::NotNeeded => (111, 0),
        Refusal::Unrecoverable => (112, 0),
        Refusal::Stale => (113, 0),
        Refusal::NotHolder(session) => (114, session.value as u32),
        Refusal::TargetOffline(node) => (115, node.value as u32),
        Refusal::NoLease => (116, 0),
        Refusal::NotEmpty(seats) => (117, seats),
    }
}

/// The refusal that has this number, and names this one, or 0.
fn read_refusal(refusal: u8, detail: u32) -> Option<Refusal>
    ensures some { IfSome result (λ read. IsRefusalInRange read × (encoded_refusal read ≡ (refusal, detail))) }
    ensures none { (result ≡ None) → (any : AnyRefusal) → IsRefusalInRange any → encoded_refusal any ≢ (refusal, detail) }
{
    match refusal {
        103 => Some(Refusal::NoLawfulNode(Fragment::new(u8::try_from(detail).ok()?)?)),
        107 => Some(Refusal::UpgradeRunning(UpgradeNo {
            value: u8::try_from(detail).ok()?,
        })),
        109 => Some(Refusal::WouldLose(StripeNo::new(u16::try_from(detail).ok()?)?)),
        110 => Some(Refusal::AlreadyLeased(detail)),
        114 => Some(Refusal::NotHolder(SessionNo::new(u8::try_from(detail).ok()?)?)),
        115 => Some(Refusal::TargetOffline(NodeNo {
            value: u16::try_from(detail).ok()?,
        })),
        117 => Some(Refusal::NotEmpty(detail)),
        _ if detail != 0 => None,
        101 => Some(Refusal::UnknownStripe),
        102 => Some(Refusal::StripeExists),
        104 => Some(Refusal::UnknownNode),
        105 => Some(Refusal::WrongMode),
        106 => Some(Refusal::UnknownDomain),
        108 => Some(Refusal::NotUpgrading),
        111 => Some(Refusal::NotNeeded),
        112 => Some(Refusal::Unrecoverable),
        113 => Some(Refusal::Stale),
        116 => Some(Refusal::NoLease),
        _ => None,
    }
}
