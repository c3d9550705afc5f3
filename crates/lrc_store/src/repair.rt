//! The repair that a lease is granted for.

ghost use Rattle.std.specs.Prelude.{◌≡◌, if◌then◌else◌, List, Some, None, IsTrue};
ghost use Rattle.lrc_code.specs.declared.numbers.Fragment.{Fragment};
ghost use Rattle.lrc_code.specs.Codes.{has_fragment, others};
ghost use Rattle.lrc_code.specs.Losses.{bits_set, is_local};
ghost use Rattle.lrc_stripes.specs.Tables.{stored_in};
ghost use Rattle.lrc_rules.specs.declared.entry.Entry.{Entry};
ghost use Rattle.lrc_rules.specs.declared.reply.Reply.TheVariants.{Granted};
ghost use Rattle.lrc_answers.specs.Answers.{told};
ghost use Rattle.lrc_rules.specs.Leases.{new_lease};
ghost use Rattle.lrc_rules.specs.Repairs as repairs;
ghost use Rattle.lrc_rules.specs.States.{State, code_of};
ghost use Rattle.lrc_store.specs.Repairing.{repair_or_refusal};
ghost use Rattle.lrc_store.specs.Stores.{IsOf, IsTied, AreFew, AreGrantsOf, repair_of};

use crate::clock::Clock;
use crate::store::Store;
use lrc_answers::Answer;
use lrc_code::{Code, Fragment, LossMask, SessionNo, StripeNo};
use lrc_leases::Grants;
use lrc_rules::{Kind, Lease, Refusal, Seat};

/// What a lease is granted for: a fragment, how it is rebuilt, and its new seat.
#[derive(Clone, Copy)]
pub struct Repair {
    pub stripe: StripeNo,
    pub fragment: Fragment,
    pub kind: Kind,
    pub target: Seat,
}

impl Repair {
    /// The reply to a session that gets the lease.
    pub(crate) fn granted_to(self, session: SessionNo, counts: &Grants, clock: Clock) -> Answer
        requires { AreFew counts.now }
        ensures { (past : List Entry) (st : State) → AreGrantsOf past counts.now → clock.value ≡ st.clock
            → told result ≡ Granted (new_lease past st session self.stripe self.fragment self.target) self.kind }
    {
        let lease = Lease {
            stripe: self.stripe,
            fragment: self.fragment,
            holder: session,
            target: self.target,
            epoch: counts.count(self.stripe, self.fragment) + 1,
            expiry: clock.end_of_term(),
        };
        Answer::Granted(lease, self.kind)
    }
}

impl Store {
    /// Returns the repair of a fragment that needs a lease and has none, or why its lease is refused. The stripe must exist,
    /// and its code must have the fragment.
    pub(crate) fn repair(&self, stripe: StripeNo, fragment: Fragment) -> Result<Repair, Refusal>
        requires tied { IsTied self.now }
        requires there { IsTrue ((stored_in self.now.stripes).stripes stripe) }
        ensures { (st : State) → IsOf st self.now → IsTrue (has_fragment (code_of st stripe) fragment.value)
            → result ≡ repair_or_refusal self.now.topology st stripe fragment }
    {
        match self.repair_kind(stripe, fragment) {
            None => Err(Refusal::Unrecoverable),
            Some(kind) => match self.repair_seat(stripe, fragment) {
                None => Err(Refusal::NoLawfulNode(fragment)),
                Some(target) => Ok(Repair {
                    stripe,
                    fragment,
                    kind,
                    target,
                }),
            },
        }
    }

    /// Returns the fragments of a stripe that need a lease. The stripe must exist.
    pub(crate) fn needs(&self, stripe: StripeNo) -> LossMask
        requires { IsTrue ((stored_in self.now.stripes).stripes stripe) }
        ensures { (st : State) (f : Fragment) → IsOf st self.now
            → bits_set result.bits f.value ≡ repairs.needs self.now.topology st stripe f }
    {
        self.stripes.needs_there(stripe)
    }

    /// Returns how a fragment is rebuilt; `None` if it can't be. The stripe must exist, and its code must have the fragment.
    #[inline(always)] // so that a grant copies its kind once less
    pub fn repair_kind(&self, stripe: StripeNo, fragment: Fragment) -> Option<Kind>
        requires { IsTrue ((stored_in self.now.stripes).stripes stripe) }
        ensures { (st : State) → IsOf st self.now → IsTrue (has_fragment (code_of st stripe) fragment.value)
            → result ≡ repair_of self.now.topology st stripe fragment }
    {
        let missing = self.stripes.missing(stripe)?;
        if !missing.contains(fragment) {
            return Some(Kind::Move);
        }
        let code = self.code_of(stripe);
        if let Some(kind) = local_kind(code, missing, fragment) {
            return Some(kind);
        }
        if missing.recoverable_in(code) {
            Some(Kind::Global)
        } else {
            None
        }
    }
}

/// Returns how a fragment is rebuilt from its local group; `None` if too many fragments of the group are `missing`.
#[inline(always)] // as `Store::repair_kind`
fn local_kind(code: Code, missing: LossMask, fragment: Fragment) -> Option<Kind>
    ensures { result ≡ (if is_local code (bits_set missing.bits) fragment then Some (repairs.local_kind code (others code fragment)) else None) }
{
    match code {
        Code::Wide => Some(Kind::Local(missing.local_sources(fragment)?)),
        Code::Narrow => Some(Kind::Local3(missing.narrow_sources(fragment)?)),
    }
}
