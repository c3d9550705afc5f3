//! Commands on upgrade domains.

ghost use Rattle.std.specs.Prelude.{◌≡◌, None};
ghost use Rattle.lrc_rules.specs.declared.reply.Reply.TheVariants.{Changed};
ghost use Rattle.lrc_answers.specs.Answers.{told};
ghost use Rattle.lrc_rules.specs.States.{State};
ghost use Rattle.lrc_rules.specs.Steps.{upgrade_outcome, upgraded_outcome, with_upgrading, without_upgrading};
ghost use Rattle.lrc_store.specs.Stores.{IsOf};

use crate::store::Store;
use lrc_answers::Answer;
use lrc_code::UpgradeNo;
use lrc_rules::{Command, Refusal};

impl Store {
    /// Looks ahead, so that the answer to an `upgrade` costs less. The answer stays the same, and so does all else.
    #[inline(always)] // any other command then makes no call
    pub fn look_ahead(&mut self, command: &Command)
        ensures { self.new ≡ self.old }
    {
        if let Command::Upgrade(domain) = *command {
            self.settle(domain);
        }
    }

    /// The same for this domain. There is nothing to find where it does not exist, or one is upgrading.
    #[inline(never)]
    fn settle(&mut self, domain: UpgradeNo)
        ensures { self.new ≡ self.old }
    {
        if self.upgrading.is_none() && self.topology.has_upgrade_domain(domain) {
            self.stripes.settle(domain);
        }
    }

    #[inline(never)]
    pub(crate) fn upgrade_reply(&self, domain: UpgradeNo) -> Answer
        ensures { (st : State) → IsOf st self.now → told result ≡ (upgrade_outcome self.now.topology st domain).0 }
    {
        if !self.topology.has_upgrade_domain(domain) {
            return Answer::Refused(Refusal::UnknownDomain);
        }
        if let Some(upgrading) = self.upgrading {
            return Answer::Refused(Refusal::UpgradeRunning(upgrading));
        }
        match self.stripes.would_lose_short(domain) {
            Some(stripe) => Answer::Refused(Refusal::WouldLose(stripe)),
            None => Answer::Changed,
        }
    }

    /// Takes the nodes of an upgrade domain offline. No domain may be upgrading.
    pub fn upgrade(&mut self, domain: UpgradeNo)
        requires { self.old.upgrading ≡ None }
        ensures nodes { self.new.topology ≡ self.old.topology }
        ensures kept { (st : State) → IsOf st self.old → IsOf (with_upgrading st domain) self.new }
    {
        self.upgrading = Some(domain);
        self.stripes.set_upgrading_in(domain, true);
    }

    #[inline(never)]
    pub(crate) fn upgraded_reply(&self, domain: UpgradeNo) -> Answer
        ensures { (st : State) → IsOf st self.now → told result ≡ (upgraded_outcome self.now.topology st domain).0 }
    {
        if !self.topology.has_upgrade_domain(domain) {
            return Answer::Refused(Refusal::UnknownDomain);
        }
        if self.upgrading != Some(domain) {
            return Answer::Refused(Refusal::NotUpgrading);
        }
        Answer::Changed
    }

    /// Brings the nodes of the upgrade domain back, but for those that are down or out of the store.
    pub(crate) fn upgraded(&mut self, domain: UpgradeNo)
        ghost st: { State }
        requires kept { IsOf st self.old }
        requires told { (upgraded_outcome self.old.topology st domain).0 ≡ Changed }
        ensures nodes { self.new.topology ≡ self.old.topology }
        ensures kept { IsOf (without_upgrading st) self.new }
    {
        self.upgrading = None;
        self.stripes.set_upgrading_in(domain, false);
    }
}
