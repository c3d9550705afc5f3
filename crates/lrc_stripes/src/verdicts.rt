//! What the searches for stripes that an upgrade would make unrecoverable have found, until something changes.

ghost use Rattle.std.specs.Prelude.{◌≡◌, ℕ, Bool, ◌&&◌, ◌||◌, ◌≤◌, [], true, false, get_or, length, vec_len, vec_capacity, IfOk};
ghost use Rattle.lrc_code.specs.Numbers.{same_stripe};
ghost use Rattle.lrc_code.specs.declared.numbers.StripeNo.{StripeNo as AnyStripe};
ghost use Rattle.lrc_code.specs.declared.numbers.UpgradeNo.{UpgradeNo as AnyDomain};
ghost use Rattle.lrc_ranks.specs.Sets.{has};
ghost use Rattle.lrc_rows.specs.NodeStates.{states_in, is_on_several_down};
ghost use Rattle.lrc_rows.specs.Listed.{rows_in};
ghost use Rattle.lrc_rows.specs.Kept.{row_has_work};
ghost use Rattle.lrc_stripes.specs.UpgradeLosses.{AreVerdicts, AreLeft};

use lrc_code::{NodeNo, StripeNo, UpgradeNo};
use lrc_ranks::StripeSet;
use lrc_rows::{NodeTable, Rows};
use std::alloc::{AllocError, Global};

/// The number of upgrade domains.
const DOMAINS: usize = 256;

/// The stripes that the upgrade of a domain leaves recoverable, as far as they were looked at. A stripe whose homes changed,
/// or a node of which went up or down, is to be looked at again.
#[derive(Drop)]
pub(crate) struct Verdicts {
    /// By upgrade domain, up to the highest that was asked for: the stripes that it leaves recoverable, but for those that
    /// changed.
    safe: Vec<StripeSet>,
    /// The stripes that changed since all of them were taken from the safe ones.
    changed: StripeSet,
    /// The stripes with homes on several nodes that are not up, if nothing changed.
    several: StripeSet,
    /// Whether nothing changed.
    is_settled: bool,
    /// Whether a node went up or down since the last search. Then many stripes changed.
    nodes_changed: bool,
}

impl Verdicts {
    /// No stripe was looked at. There is room for all domains.
    pub(crate) fn new(alloc: Global) -> Result<Verdicts, AllocError>
        ensures { IfOk result (λ v. (lost : AnyDomain → AnyStripe → Bool) (several : AnyStripe → Bool) → AreVerdicts lost several v) }
    {
        Ok(Verdicts {
            safe: Vec::with_capacity(alloc, DOMAINS)?,
            changed: StripeSet::new(),
            several: StripeSet::new(),
            is_settled: false,
            nodes_changed: false,
        })
    }

    /// Notes that a stripe changed.
    pub(crate) fn mark(&mut self, stripe: StripeNo)
        ensures { (lost now : AnyDomain → AnyStripe → Bool) (several after : AnyStripe → Bool) → AreVerdicts lost several self.old
            → ((u : AnyDomain) (s : AnyStripe) → same_stripe stripe s ≡ false → now u s ≡ lost u s) → AreVerdicts now after self.new }
    {
        self.changed.insert(stripe);
        self.is_settled = false;
    }

    /// Notes whether a node went up or down, which it did not if it was so before. The stripes with a home on it changed then.
    pub(crate) fn follow_up(&mut self, node_table: &NodeTable, node: NodeNo, was_up: bool)
        ensures { (lost now : AnyDomain → AnyStripe → Bool) (several after : AnyStripe → Bool) → AreVerdicts lost several self.old
            → ((u : AnyDomain) (s : AnyStripe) → (states_in node_table.now).on node s ≡ false → now u s ≡ lost u s)
            → ((states_in node_table.now).up node ≡ was_up → (now ≡ lost) × (after ≡ several)) → AreVerdicts now after self.new }
    {
        if node_table.is_up(node) == was_up {
            return;
        }
        self.is_settled = false;
        self.nodes_changed = true;
        if let Some(stripes) = node_table.stripes_on(node) {
            self.changed.insert_all(stripes);
        }
    }

    /// Whether a node went up or down since the last call.
    pub(crate) fn take_nodes_changed(&mut self) -> bool
        ensures { (lost : AnyDomain → AnyStripe → Bool) (several : AnyStripe → Bool) → AreVerdicts lost several self.old → AreVerdicts lost several self.new }
    {
        let changed = self.nodes_changed;
        self.nodes_changed = false;
        changed
    }

    /// Takes the stripes that changed from the safe ones, and finds the stripes with homes on several nodes that are not up.
    pub(crate) fn settle(&mut self, node_table: &NodeTable)
        ensures { (lost : AnyDomain → AnyStripe → Bool) → AreVerdicts lost (is_on_several_down (states_in node_table.now)) self.old
            → AreVerdicts lost (is_on_several_down (states_in node_table.now)) self.new }
    {
        if self.is_settled {
            return;
        }
        remove_from_all(&mut self.safe, &self.changed);
        self.changed = StripeSet::new();
        self.several = node_table.stripes_on_several_down();
        self.is_settled = true;
    }

    /// Makes a set for each domain up to this one.
    pub(crate) fn reach(&mut self, domain: UpgradeNo)
        requires { (256 ≤ vec_capacity self.old.safe) }
        ensures { (lost : AnyDomain → AnyStripe → Bool) (several : AnyStripe → Bool) → AreVerdicts lost several self.old → AreVerdicts lost several self.new }
    {
        while self.safe.len() <= domain.value as usize {
            self.safe.push_reserved(StripeSet::new());
        }
    }

    /// Keeps that the upgrade of the domain leaves the stripe recoverable.
    pub(crate) fn keep_safe(&mut self, domain: UpgradeNo, stripe: StripeNo)
        ensures { (lost : AnyDomain → AnyStripe → Bool) (several : AnyStripe → Bool) → AreVerdicts lost several self.old → lost domain stripe ≡ false → AreVerdicts lost several self.new }
    {
        if let Some(safe) = self.safe.get_mut(domain.value as usize) {
            safe.insert(stripe);
        }
    }

    /// The stripes with work, and those with homes on several nodes that are not up, without those that are known to be safe.
    pub(crate) fn doubtful(
        &self,
        node_table: &NodeTable,
        rows: &Rows,
        domain: UpgradeNo,
    ) -> StripeSet
        ensures { (lost : AnyDomain → AnyStripe → Bool) → AreVerdicts lost (is_on_several_down (states_in node_table.now)) self.now
            → AreLeft (λ s. is_on_several_down (states_in node_table.now) s || row_has_work (rows_in rows.now.list s)) (lost domain) (has result) }
    {
        if !self.is_settled {
            let mut all = node_table.stripes_on_several_down();
            rows.join_work(&mut all);
            return all;
        }
        let mut left = StripeSet::new();
        left.insert_all(&self.several);
        rows.join_work(&mut left);
        if let Some(safe) = self.safe.get(domain.value as usize) {
            left.remove_all(safe);
        }
        left
    }
}

/// Removes the stripes of a set from each of the others.
fn remove_from_all(sets: &mut Vec<StripeSet>, stripes: &StripeSet)
    ensures room { vec_capacity sets.new ≡ vec_capacity sets.old }
    ensures long { vec_len sets.new ≡ vec_len sets.old }
    ensures each { (k : ℕ) (s : AnyStripe) → has (get_or sets.new.items k []) s ≡ true → (has (get_or sets.old.items k []) s ≡ true) × (has stripes.now s ≡ false) }
{
    for index in 0..sets.len() {
        let set = &mut sets[index];
        set.remove_all(stripes);
    }
}
