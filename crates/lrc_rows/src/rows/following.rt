//! The masks of the rows follow the states of the nodes.

ghost use Rattle.std.specs.Prelude.{◌≡◌, ◌<◌, ◌&&◌, ℕ, if◌then◌else◌, Bool, false, length, slice_set};
ghost use Rattle.lrc_code.specs.Numbers.{same_node};
ghost use Rattle.lrc_code.specs.declared.numbers.NodeNo.{NodeNo as AnyNode};
ghost use Rattle.lrc_code.specs.declared.numbers.StripeNo.{StripeNo as AnyStripe};
ghost use Rattle.lrc_ranks.specs.Sets.{has, at_fragment};
ghost use Rattle.lrc_rows.specs.NodeStates.{states_in};
ghost use Rattle.lrc_rows.specs.Listed.{rows_in};
ghost use Rattle.lrc_rows.specs.Kept.{IsKept, AreSameStripes, AreRanksOf, is_in_upgrade, row_has_work};

use crate::node_table::NodeTable;
use crate::row::Row;
use crate::rows::Rows;
use crate::upgrading_domains::UpgradingDomains;
use lrc_code::{NodeNo, UpgradeNo};
use lrc_ranks::{FragmentSets, KeptPlanes, Planes, Queue, StripeSet};

impl Rows {
    /// Makes the masks follow whether a node is draining, before the table of nodes does.
    pub fn follow_draining(&mut self, node_table: &NodeTable, node: NodeNo, is_draining: bool)
        requires { IsKept (states_in node_table.now) (rows_in self.old.list) }
        ensures kept { IsKept (record (states_in node_table.now) { draining = λ m. if same_node node m then is_draining else (states_in node_table.now).draining m }) (rows_in self.new.list) }
        ensures same { AreSameStripes (rows_in self.old.list) (rows_in self.new.list) }
        ensures upgrading { self.new.upgrading ≡ self.old.upgrading }
    {
        if node_table.is_draining(node) != is_draining {
            self.renew_needs(node_table, node, is_draining);
        }
    }

    /// Makes the masks follow whether a node is up, if it was not so before the table of nodes changed.
    pub fn follow_up(&mut self, node_table: &NodeTable, node: NodeNo, was_up: bool)
        ensures kept { IsKept (record (states_in node_table.now) { up = λ m. if same_node node m then was_up else (states_in node_table.now).up m }) (rows_in self.old.list) → IsKept (states_in node_table.now) (rows_in self.new.list) }
        ensures same { AreSameStripes (rows_in self.old.list) (rows_in self.new.list) }
        ensures upgrading { self.new.upgrading ≡ self.old.upgrading }
    {
        if node_table.is_up(node) != was_up && self.has_work() {
            let work = self.work_set();
            self.follow_node(node_table, &work, node);
        }
    }

    /// Makes the masks follow whether a node is up. All stripes that have work are in the set.
    fn follow_node(&mut self, node_table: &NodeTable, work: &StripeSet, node: NodeNo)
        requires { (s : AnyStripe) → has work.now s ≡ false → row_has_work (rows_in self.old.list s) ≡ false }
        ensures kept { (up : AnyNode → Bool) → IsKept (record (states_in node_table.now) { up = up }) (rows_in self.old.list)
            → IsKept (record (states_in node_table.now) { up = λ m. if same_node m node then (states_in node_table.now).up m else up m }) (rows_in self.new.list) }
        ensures same { AreSameStripes (rows_in self.old.list) (rows_in self.new.list) }
        ensures upgrading { self.new.upgrading ≡ self.old.upgrading }
    {
        let is_up = node_table.is_up(node);
        self.renew_missing(node_table, work, node, !is_up);
    }

    /// Sets whether an upgrade domain is upgrading. The ranks follow, and the rows stay as they are.
    pub fn set_upgrading_in(&mut self, domain: UpgradeNo, is_upgrading: bool)
        ensures rows { self.new.list ≡ self.old.list }
        ensures upgrading { self.new.upgrading ≡ slice_set self.old.upgrading domain.value is_upgrading }
    {
        let has_work = self.has_work();
        self.upgrading.set(domain, is_upgrading);
        if has_work {
            renew(
                &mut self.work,
                &mut self.planes,
                &self.list,
                &self.upgrading,
            );
        }
    }
}

/// Makes the ranks of the stripes with work anew.
fn renew(
    work: &mut Queue,
    planes: &mut KeptPlanes,
    list: &Vec<Option<Row>>,
    upgrading: &UpgradingDomains,
)
    requires { length list.now.items ≡ 4096 }
    ensures planes { planes.new ≡ planes.old }
    ensures ranks { AreRanksOf list.now.items upgrading.now planes.old work.new }
{
    if upgrading.is_empty() {
        work.renew_by(planes);
    } else {
        renew_with(work, planes.planes(), list, upgrading);
    }
}

/// The same during an upgrade.
#[inline(never)] // so that nothing clears the room for its sets where there is no work or no upgrade
fn renew_with(
    work: &mut Queue,
    planes: &Planes,
    list: &Vec<Option<Row>>,
    upgrading: &UpgradingDomains,
)
    requires { length list.now.items ≡ 4096 }
    ensures { AreRanksOf list.now.items upgrading.now planes.now work.new }
{
    let more = in_upgrade(list, &planes.work, upgrading);
    work.renew(planes, &more);
}

/// The stripes of a set by the fragments with a home in an upgrading domain.
fn in_upgrade(
    list: &Vec<Option<Row>>,
    stripes: &StripeSet,
    upgrading: &UpgradingDomains,
) -> FragmentSets
    requires { length list.now.items ≡ 4096 }
    ensures { (f : ℕ) (s : AnyStripe) → f < 16 → at_fragment result f s ≡ (has stripes.now s && is_in_upgrade upgrading.now f (rows_in list.now.items s)) }
{
    let mut sets = FragmentSets::new();
    let mut left = stripes.members();
    while let Some(stripe) = left.next_stripe() {
        if let Some(row) = &list[stripe.value as usize] {
            sets.put(stripe, row.in_upgrade(upgrading), true);
        }
    }
    sets
}
