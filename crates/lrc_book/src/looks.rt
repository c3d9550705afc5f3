//! More looks: at the upgrade, at stripes, nodes, repairs and homes. No command needs them.

ghost use Rattle.std.specs.Prelude.{◌≡◌, true, IfOk, IfErr};
ghost use Rattle.std.specs.List.{AllByRecursion, slice_get};
ghost use Rattle.lrc_code.specs.declared.fault.Fault.TheVariants as fault;
ghost use Rattle.lrc_rules.specs.States.{has_stripe};
ghost use Rattle.lrc_rules.specs.Urgency.{work, risk};
ghost use Rattle.lrc_book.specs.Books.{state_of};
ghost use Rattle.lrc_book.specs.Looks.{down_shown, kind_shown, is_granted_now, stripes_of, homes_on};

use crate::{Book, Kind, Level};
use lrc_code::{Fault, Fragment, NodeNo, STRIPES, StripeNo, UpgradeNo};
use std::alloc::Global;

/// The number of stripe numbers.
const STRIPE_NUMBERS: u16 = STRIPES as u16;

impl Book {
    /// The upgrade domain whose nodes are offline for an upgrade, if there is one.
    pub fn upgrading(&self) -> Option<UpgradeNo>
        ensures { result ≡ (state_of self.now).upgrading }
    {
        self.store().upgrading
    }

    /// Whether a node is down; `None` where the store has no such node. A node that is not down may be offline all the
    /// same, for an upgrade or because it is gone.
    pub fn is_down(&self, node: NodeNo) -> Option<bool>
        ensures { result ≡ down_shown self.now.nodes (state_of self.now) node }
    {
        let store = self.store();
        match store.topology.node(node) {
            Some(_) => Some(store.stripes.is_down(node)),
            None => None,
        }
    }

    /// The stripes of the store, in rising order.
    ///
    /// # Errors
    ///
    /// Only `Fault::OutOfMemory`.
    pub fn stripes(&self, alloc: Global) -> Result<Vec<StripeNo>, Fault>
        ensures value { IfOk result (λ rows. rows.items ≡ stripes_of (state_of self.now)) }
        ensures there { IfOk result (λ rows. AllByRecursion (λ s. has_stripe (state_of self.now) s ≡ true) rows.items) }
        ensures err { IfErr result (λ e. e ≡ fault.OutOfMemory) }
    {
        let mut rows = Vec::new(alloc);
        for number in 0..STRIPE_NUMBERS {
            let stripe = StripeNo::new(number).unwrap();
            if self.code(stripe).is_some() {
                rows.push(stripe)?;
            }
        }
        Ok(rows)
    }

    /// The first row of `risk`, which is most urgent; `None` where each stripe is whole. It requests no memory.
    pub fn first_at_risk(&self) -> Option<(StripeNo, Level)>
        ensures { result ≡ slice_get (risk self.now.nodes (state_of self.now)) 0 }
    {
        self.store().stripes.at_risk().next()
    }

    /// How a fragment that needs a lease is rebuilt; `None` where there is no such stripe, or the fragment needs no lease.
    /// It is `Global` too where too many fragments are missing to rebuild it.
    pub fn kind(&self, stripe: StripeNo, fragment: Fragment) -> Option<Kind>
        ensures { result ≡ kind_shown self.now.nodes (state_of self.now) stripe fragment }
    {
        let store = self.store();
        let needing = store.stripes.needs(stripe)?;
        if !needing.contains(fragment) {
            return None;
        }
        Some(store.repair_kind(stripe, fragment).unwrap_or(Kind::Global))
    }

    /// Whether a lease of a fragment would be granted: the stripe is there, the fragment needs a lease and has none, it can
    /// be rebuilt, and there is a seat for it.
    pub fn is_grantable(&self, stripe: StripeNo, fragment: Fragment) -> bool
        ensures { result ≡ is_granted_now self.now.nodes (state_of self.now) stripe fragment }
    {
        let store = self.store();
        store.stripes.contains(stripe)
            && store
                .waiting_repair(store.waiting(stripe), stripe, fragment)
                .is_some()
    }

    /// The stripes with a fragment that needs a lease, in the order of repair: by rank, and by number.
    ///
    /// # Errors
    ///
    /// Only `Fault::OutOfMemory`.
    pub fn work(&self, alloc: Global) -> Result<Vec<StripeNo>, Fault>
        ensures value { IfOk result (λ rows. rows.items ≡ work self.now.nodes (state_of self.now)) }
        ensures err { IfErr result (λ e. e ≡ fault.OutOfMemory) }
    {
        let mut rows = Vec::new(alloc);
        for stripe in self.store().stripes.work() {
            rows.push(stripe)?;
        }
        Ok(rows)
    }

    /// The fragments with a home on a node, in rising order of stripe and fragment; none where the store has no such node.
    ///
    /// # Errors
    ///
    /// Only `Fault::OutOfMemory`.
    pub fn homes_on(&self, alloc: Global, node: NodeNo) -> Result<Vec<(StripeNo, Fragment)>, Fault>
        ensures value { IfOk result (λ rows. rows.items ≡ homes_on (state_of self.now) node) }
        ensures err { IfErr result (λ e. e ≡ fault.OutOfMemory) }
    {
        let mut rows = Vec::new(alloc);
        for row in self.store().stripes.homes_on(node) {
            rows.push(row)?;
        }
        Ok(rows)
    }
}
