//! Commands of repair leases.

ghost use Rattle.std.specs.Prelude.{◌≡◌, ◌++◌, ◌∷◌, [], true, List, length, IsSome};
ghost use Rattle.lrc_rules.specs.declared.entry.Entry.{Entry};
ghost use Rattle.lrc_code.specs.declared.numbers.Fragment.{Fragment};
ghost use Rattle.lrc_rules.specs.States.{State, has_stripe, lease_of};
ghost use Rattle.lrc_rules.specs.Leases.{lease_outcome, done_outcome, abandon_outcome, revoke_outcome, at_epoch, with_lease};
ghost use Rattle.lrc_answers.specs.Answers.{told};
ghost use Rattle.lrc_slots.specs.Tables.{slots_of};
ghost use Rattle.lrc_terms.specs.Leased as leased;
ghost use Rattle.lrc_terms.specs.Leased.{Leased};
ghost use Rattle.lrc_homes.specs.Domains.{AreDomainsKept};
ghost use Rattle.lrc_rules.specs.Changes.{with_done};
ghost use Rattle.lrc_store.specs.Reports.{reported};
ghost use Rattle.lrc_store.specs.Stores.{IsOf, IsTied, IsGrant, MayLease, AreGrantsOf, AreFew, targets_in};

use crate::store::Store;
use lrc_answers::Answer;
use lrc_code::{Fragment, SessionNo, StripeNo};
use lrc_leases::Grants;
use lrc_rules::{Lease, Refusal};

impl Store {
    #[inline(never)]
    pub(crate) fn lease_reply(
        &self,
        counts: &Grants,
        session: SessionNo,
        stripe: StripeNo,
        fragment: Fragment,
    ) -> Answer
        requires tied { IsTied self.now }
        requires few { AreFew counts.now }
        ensures { (st : State) (past : List Entry) → IsOf st self.now → AreGrantsOf past counts.now
            → told result ≡ (lease_outcome self.now.topology past st session stripe fragment).0 }
    {
        if !self.stripes.contains(stripe) {
            return Answer::Refused(Refusal::UnknownStripe);
        }
        if let Some(lease) = self.leases.lease(stripe, fragment) {
            return Answer::Refused(Refusal::AlreadyLeased(lease.epoch));
        }
        if !self.needs(stripe).contains(fragment) {
            return Answer::Refused(Refusal::NotNeeded);
        }
        match self.repair(stripe, fragment) {
            Ok(repair) => repair.granted_to(session, counts, self.clock),
            Err(refusal) => Answer::Refused(refusal),
        }
    }

    /// Adds the lease of a fragment that has none, on the seat that is chosen for it.
    #[inline(never)] // a step that grants nothing then saves fewer registers
    pub fn grant(&mut self, lease: &Lease)
        ghost st: { State }
        requires kept { IsOf st self.old }
        requires told { IsGrant self.old.topology st lease.now }
        ensures nodes { self.new.topology ≡ self.old.topology }
        ensures kept { IsOf (with_lease st lease.now) self.new }
    {
        self.add_lease(lease);
    }

    /// Adds the lease of a fragment that has none, and takes its target, which the fragment must be able to hold.
    #[inline(always)]
    pub fn add_lease(&mut self, lease: &Lease)
        requires { (st : State) × IsOf st self.old × MayLease self.old.topology st lease.now }
        ensures nodes { self.new.topology ≡ self.old.topology }
        ensures kept { (st : State) → IsOf st self.old → MayLease self.old.topology st lease.now → IsOf (with_lease st lease.now) self.new }
    {
        self.table.take_slot(lease.target.node, lease.target.slot);
        self.leases.add(*lease);
        self.put_domains(lease);
    }

    /// Stores the domains of the target of a lease.
    fn put_domains(&mut self, lease: &Lease)
        requires { length self.old.target_domains.items ≡ 4096 }
        ensures rest { self.new ≡ record self.old { target_domains = self.new.target_domains } }
        ensures kept { (t : Leased) → AreDomainsKept (slots_of self.old.table).nodes (targets_in t) self.old.target_domains.items → AreDomainsKept (slots_of self.old.table).nodes (targets_in (leased.with_lease t lease.now)) self.new.target_domains.items }
    {
        if let Some(node) = self.table.node(lease.target.node) {
            let domains = &mut self.target_domains[lease.stripe.value as usize];
            domains.put(lease.fragment, &node);
        }
    }

    #[inline(never)]
    pub(crate) fn done_reply(
        &self,
        session: SessionNo,
        stripe: StripeNo,
        fragment: Fragment,
        epoch: u32,
    ) -> Answer
        ensures { (st : State) → IsOf st self.now → told result ≡ (done_outcome self.now.topology st session stripe fragment epoch).0 }
    {
        match self.reported_lease(session, stripe, fragment, epoch) {
            Err(refusal) => Answer::Refused(refusal),
            Ok(lease) => {
                if !self.stripes.is_online(lease.target.node) {
                    return Answer::Refused(Refusal::TargetOffline(lease.target.node));
                }
                Answer::Ended
            }
        }
    }

    /// The live lease that a session reports on by its epoch; or why the report is refused.
    fn reported_lease(
        &self,
        session: SessionNo,
        stripe: StripeNo,
        fragment: Fragment,
        epoch: u32,
    ) -> Result<Lease, Refusal>
        ensures { (st : State) → IsOf st self.now → result ≡ reported st session stripe fragment epoch }
    {
        if !self.stripes.contains(stripe) {
            return Err(Refusal::UnknownStripe);
        }
        match self.lease_at(stripe, fragment, epoch) {
            None => Err(Refusal::Stale),
            Some(lease) => {
                if lease.holder != session {
                    return Err(Refusal::NotHolder(lease.holder));
                }
                Ok(lease)
            }
        }
    }

    /// The live lease of a fragment, if it has this epoch.
    fn lease_at(&self, stripe: StripeNo, fragment: Fragment, epoch: u32) -> Option<Lease>
        ensures { (st : State) → IsOf st self.now → result ≡ at_epoch epoch (lease_of st stripe fragment) }
    {
        let lease = self.leases.lease(stripe, fragment)?;
        if lease.epoch == epoch {
            Some(lease)
        } else {
            None
        }
    }

    /// Ends the lease of a fragment. The seat of its home, if it has one, is freed, and the target becomes its home.
    pub(crate) fn move_in(&mut self, stripe: StripeNo, fragment: Fragment)
        ghost st: { State }
        requires kept { IsOf st self.old }
        requires there { has_stripe st stripe ≡ true }
        requires live { IsSome (lease_of st stripe fragment) }
        ensures nodes { self.new.topology ≡ self.old.topology }
        ensures kept { IsOf (with_done st stripe fragment (lease_of st stripe fragment)) self.new }
    {
        self.free_home(stripe, fragment);
        if let Some(lease) = self.leases.remove(stripe, fragment) {
            self.stripes.put_home(stripe, fragment, lease.target);
        }
    }

    #[inline(never)]
    pub(crate) fn abandon_reply(
        &self,
        session: SessionNo,
        stripe: StripeNo,
        fragment: Fragment,
        epoch: u32,
    ) -> Answer
        ensures { (st : State) → IsOf st self.now → told result ≡ (abandon_outcome st session stripe fragment epoch).0 }
    {
        match self.reported_lease(session, stripe, fragment, epoch) {
            Err(refusal) => Answer::Refused(refusal),
            Ok(_) => Answer::Ended,
        }
    }

    #[tactic(auto, unfolding(lrc_rules::specs::Leases::revoke_outcome))]
    #[inline(never)]
    pub(crate) fn revoke_reply(&self, stripe: StripeNo, fragment: Fragment) -> Answer
        ensures { (st : State) → IsOf st self.now → told result ≡ (revoke_outcome st stripe fragment).0 }
    {
        if !self.stripes.contains(stripe) {
            return Answer::Refused(Refusal::UnknownStripe);
        }
        if self.leases.lease(stripe, fragment).is_none() {
            return Answer::Refused(Refusal::NoLease);
        }
        Answer::Ended
    }
}

/// Counts the grant, if the answer is one. Requires that no count is at its limit.
#[inline(always)] // a step that grants nothing then makes no call here
pub fn count_grant(counts: &mut Grants, answer: &Answer)
    requires { AreFew counts.old }
    ensures { (past : List Entry) (e : Entry) → e.reply ≡ told answer.now → AreGrantsOf past counts.old → AreGrantsOf (past ++ e ∷ []) counts.new }
{
    if let Answer::Granted(lease, _) = answer {
        counts.add(lease.stripe, lease.fragment);
    }
}
