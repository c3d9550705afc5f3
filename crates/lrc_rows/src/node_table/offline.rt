//! The stripes with homes on offline nodes.

ghost use Rattle.std.specs.Prelude.{◌≡◌, ◌&&◌, ◌||◌, true, false, get_or, []};
ghost use Rattle.lrc_code.specs.declared.numbers.NodeNo.{NodeNo as AnyNode};
ghost use Rattle.lrc_code.specs.declared.numbers.StripeNo.{StripeNo as AnyStripe};
ghost use Rattle.lrc_ranks.specs.Sets.{has};
ghost use Rattle.lrc_rows.specs.NodeStates.{states_in, is_on_several_down};

use crate::node_table::NodeTable;
use lrc_code::{NodeNo, StripeNo};
use lrc_ranks::StripeSet;

/// The number of offline nodes that are tried for one stripe.
const FEW: usize = 3;

impl NodeTable {
    /// The stripes with a home on an offline node.
    pub fn stripes_offline(&self) -> StripeSet
        ensures { (n : AnyNode) (s : AnyStripe) → (states_in self.now).online n ≡ false → (states_in self.now).on n s ≡ true → has result s ≡ true }
    {
        let mut found = StripeSet::new();
        for position in 0..self.nodes.len() {
            if self.nodes.is_offline_at(position) {
                self.join(self.nodes.node_at(position).number, &mut found);
            }
        }
        found
    }

    /// Whether no node is offline.
    pub(crate) fn are_all_online(&self) -> bool
        ensures { result ≡ true → (n : AnyNode) (s : AnyStripe) → (states_in self.now).on n s ≡ true → (states_in self.now).online n ≡ true }
    {
        self.nodes.are_all_online()
    }

    /// Whether the stripe has no home on an offline node. `false` also if there are too many offline nodes to try.
    pub(crate) fn is_clear(&self, stripe: StripeNo) -> bool
        ensures { result ≡ true → (n : AnyNode) → (states_in self.now).on n stripe ≡ true → (states_in self.now).online n ≡ true }
    {
        if self.are_all_online() {
            return true;
        }
        self.is_clear_of_few(stripe)
    }

    /// The same if some node may be offline.
    #[inline(never)] // with all nodes online no registers are saved then
    fn is_clear_of_few(&self, stripe: StripeNo) -> bool
        ensures { result ≡ true → (n : AnyNode) → (states_in self.now).on n stripe ≡ true → (states_in self.now).online n ≡ true }
    {
        let mut from = 0;
        for _ in 0..FEW {
            match self.nodes.first_offline_from(from) {
                Some(position) => {
                    if self.has_at(position, stripe) {
                        return false;
                    }
                    from = position + 1;
                }
                None => return true,
            }
        }
        false
    }

    /// Whether there is a node at the position and the stripe has a home on it.
    fn has_at(&self, position: usize, stripe: StripeNo) -> bool
        ensures { result ≡ has (get_or self.now.stripes position []) stripe }
    {
        match self.stripes.get(position) {
            Some(set) => set.contains(stripe),
            None => false,
        }
    }

    /// Whether at most one node is offline. Then no stripe has homes on several nodes that are not up.
    pub fn are_few_offline(&self) -> bool
        ensures { result ≡ true → (s : AnyStripe) → is_on_several_down (states_in self.now) s ≡ false }
    {
        match self.nodes.first_offline_from(0) {
            Some(position) => self.nodes.first_offline_from(position + 1).is_none(),
            None => true,
        }
    }

    /// The stripes with homes on several nodes that are not up.
    pub fn stripes_on_several_down(&self) -> StripeSet
        ensures { has result ≡ is_on_several_down (states_in self.now) }
    {
        let mut any = StripeSet::new();
        let mut several = StripeSet::new();
        let mut from = 0;
        while let Some(position) = self.nodes.first_offline_from(from) {
            if !self.nodes.is_up_at(position) {
                let number = self.nodes.node_at(position).number;
                self.count(number, &mut any, &mut several);
            }
            from = position + 1;
        }
        several
    }

    /// Adds the stripes with a home on the node to `any`, and those that are there already to `several`.
    fn count(&self, number: NodeNo, any: &mut StripeSet, several: &mut StripeSet)
        ensures any { has any.new ≡ λ s. has any.old s || (states_in self.now).on number s }
        ensures several { has several.new ≡ λ s. has several.old s || (has any.old s && (states_in self.now).on number s) }
    {
        if let Some(position) = self.position(number) {
            let set = &self.stripes[position];
            several.insert_common(any, set);
            any.insert_all(set);
        }
    }
}
