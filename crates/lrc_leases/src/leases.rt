ghost use Rattle.std.specs.Prelude.{◌≡◌, ◌≤◌, length, ℕ, IfOk, IfErr, IfSome, IfNone, OnErr, OnOk, IsOk, IsTrue, Some, None, option_map};
ghost use Rattle.lrc_code.specs.declared.fault.Fault.TheVariants.{OutOfMemory};
ghost use Rattle.lrc_code.specs.Losses.{bits_set};
ghost use Rattle.lrc_terms.specs.Leased.{empty, with_lease, without_lease, leased_at, ends_at, AreTargetsOn, AreThose};
ghost use Rattle.lrc_leases.specs.Tables.{leased_in};

use crate::arrays::write;
use crate::chains::Chains;
use crate::ending_at::clock_chain;
use crate::masks::Masks;
use crate::search::{capped_key, key_of};
use crate::spot::{SPOTS, spot_of};
use crate::targets_on::node_chain;
use crate::{EndingAt, Lease, TargetsOn};
use lrc_code::{Fault, Fragment, LossMask, NodeNo, StripeNo};
use lrc_topology::Seat;
use slab::Slab;
use std::alloc::Global;
use std::marker::Model;

/// The live leases of a store, at most one for each fragment of a stripe.
#[derive(Drop)]
pub struct Leases {
    slab: Slab<Lease>,
    /// The key of each fragment's lease in sixteen bits, as `capped_key` makes it; any value for a fragment without a lease.
    keys: Vec<u16>,
    /// The leases by the node of their target. A lease has the number `key + 1` there.
    targets: Chains,
    /// The leases by their end, with the same numbers.
    ends: Chains,
    /// The fragments that have a lease. A small table, which is read first.
    masks: Masks,
}

impl Model for Leases {
    ghost use Rattle.lrc_terms.specs.declared.lease.Lease.{Lease};
    ghost use Rattle.std.specs.Prelude.{List, vec_capacity};
    ghost use Rattle.lrc_leases.specs.Kept.{leases_of, IsKept};

    ghost Value = { List Lease };

    ghost view = { λ t. leases_of t.slab };

    ghost invariant = { λ t. IsKept t.slab t.keys.items (vec_capacity t.keys) t.targets t.ends t.masks };
}

#[tactic(auto, unfolding(crate::specs::Tables::leased_in))]
impl Leases {
    /// No leases. Allocates for a lease of each fragment, so that no later call allocates.
    ///
    /// # Errors
    ///
    /// Only `Fault::OutOfMemory`.
    pub fn new(alloc: Global) -> Result<Leases, Fault>
        ensures value { IfOk result (λ leases. leased_in leases ≡ empty) }
        ensures err { IfErr result (λ e. e ≡ OutOfMemory) }
    {
        let slab = Slab::with_capacity(alloc, SPOTS)?;
        // the chains number the leases from 1 on
        let bound = slab.capacity().checked_add(1).ok_or(Fault::OutOfMemory)?;
        Ok(Leases {
            slab,
            keys: Vec::with_capacity(alloc, SPOTS)?,
            targets: Chains::new(alloc, bound)?,
            ends: Chains::new(alloc, bound)?,
            masks: Masks::new(alloc)?,
        })
    }

    /// The lease of a fragment of a stripe, if there is one.
    pub fn lease(&self, stripe: StripeNo, fragment: Fragment) -> Option<Lease>
        ensures value { result ≡ (leased_in self.now).leases stripe fragment.value }
        ensures own { IfSome result (λ lease. (lease.stripe ≡ stripe) × (lease.fragment ≡ fragment)) }
    {
        if !self.masks.mask(stripe).contains(fragment) {
            return None;
        }
        let key = key_of(&self.slab, &self.keys, stripe, fragment);
        self.slab.get(key).copied()
    }

    /// The target of the lease of a fragment that has one.
    pub fn target(&self, stripe: StripeNo, fragment: Fragment) -> Seat
        requires { IsTrue (leased_at (leased_in self.now) stripe fragment.value) }
        ensures { option_map (λ l. l.target) ((leased_in self.now).leases stripe fragment.value) ≡ Some result }
    {
        let key = key_of(&self.slab, &self.keys, stripe, fragment);
        self.slab[key].target
    }

    /// The fragments of a stripe that have a lease.
    pub fn leased(&self, stripe: StripeNo) -> LossMask
        ensures { (f : ℕ) → bits_set result.bits f ≡ leased_at (leased_in self.now) stripe f }
    {
        self.masks.mask(stripe)
    }

    /// Adds the lease of a fragment that has none.
    #[inline(always)] // so that a grant makes no second call
    pub fn add(&mut self, lease: Lease)
        requires absent { (leased_in self.old).leases lease.stripe lease.fragment.value ≡ None }
        ensures { leased_in self.new ≡ with_lease (leased_in self.old) lease }
    {
        let spot = spot_of(lease.stripe, lease.fragment);
        let key = self.slab.insert_reserved(lease);
        write(&mut self.keys, spot, capped_key(key), 0);
        self.targets.add(node_chain(lease.target.node), key + 1);
        self.ends.add(clock_chain(lease.expiry), key + 1);
        self.masks.add(lease.stripe, lease.fragment);
    }

    /// Removes the lease of a fragment and returns it. Nothing changes if there is none.
    pub fn remove(&mut self, stripe: StripeNo, fragment: Fragment) -> Option<Lease>
        ensures value { result ≡ (leased_in self.old).leases stripe fragment.value }
        ensures lease { leased_in self.new ≡ without_lease (leased_in self.old) stripe fragment }
        ensures none { IfNone result (leased_in self.new ≡ leased_in self.old) }
    {
        if !self.masks.mask(stripe).contains(fragment) {
            return None;
        }
        Some(self.take(stripe, fragment))
    }

    /// Removes the lease of a fragment that has one. Not inlined, so that `remove` stays short.
    #[inline(never)]
    fn take(&mut self, stripe: StripeNo, fragment: Fragment) -> Lease
        requires { IsTrue (leased_at (leased_in self.old) stripe fragment.value) }
        ensures value { Some result ≡ (leased_in self.old).leases stripe fragment.value }
        ensures lease { leased_in self.new ≡ without_lease (leased_in self.old) stripe fragment }
    {
        let key = key_of(&self.slab, &self.keys, stripe, fragment);
        let lease = self.slab.remove(key);
        self.targets.remove(node_chain(lease.target.node), key + 1);
        self.ends.remove(clock_chain(lease.expiry), key + 1);
        self.masks.remove(stripe, fragment);
        lease
    }

    /// The leases whose target is on a node, in no particular order.
    pub fn targets_on(&self, node: NodeNo) -> TargetsOn<'_>
        ensures { AreTargetsOn (leased_in self.now) node result }
    {
        TargetsOn::new(&self.slab, self.targets.walk(node_chain(node)), node)
    }

    /// The leases that end at a clock, in no particular order. The cost is that of these leases and of those whose ends are
    /// a multiple of 512 away.
    pub fn ending_at(&self, clock: u32) -> EndingAt<'_>
        ensures those { AreThose (ends_at clock) (leased_in self.now) result }
        ensures few { length result ≤ 65536 }
    {
        EndingAt::new(&self.slab, self.ends.walk(clock_chain(clock)), clock)
    }
}
