ghost use Rattle.std.specs.Prelude.{◌≡◌, ◌<◌, ◌&&◌, ◌||◌, ℕ, List, nat_eq, nat_lt, get_or};
ghost use Rattle.std.specs.List.{list_any};
ghost use Rattle.lrc_code.specs.Codes.{fragments, all_fragments};
ghost use Rattle.lrc_code.specs.Losses.{bits_set};
ghost use Rattle.lrc_slots.specs.Barred.{Barred, joined};
ghost use Rattle.lrc_slots.specs.BarredNodes.{AreBarredNodes};
ghost use Rattle.lrc_slots.specs.Tables.{slots_of};
ghost use Rattle.lrc_bars.specs.Neighbouring.{stands_in, seats_bar, with_seat_fault, with_seat_upgrade};

use lrc_code::{FaultNo, Fragment, LossMask, UpgradeNo};
use lrc_homes::HomeDomains;
use lrc_slots::{BarredDomains, BarredNodes, Barring, SlotTable};
use lrc_topology::NodeInfo;

/// Seats of the other fragments of a stripe, one at most for each: their homes, or the targets of their leases.
#[derive(Drop)]
pub struct OtherSeats<'a> {
    /// The domains of the seats.
    pub domains: &'a HomeDomains,
    /// The other fragments that have such a seat.
    pub others: LossMask,
    /// Those of them that are of the fragment's class.
    pub members: LossMask,
}

impl<'a> OtherSeats<'a> {
    /// Whether the node is in a domain that one of the seats bars.
    fn are_near(&self, node: &NodeInfo) -> bool
        ensures { result ≡ ((seats_bar self.now).faults node.now.fault || (seats_bar self.now).upgrades node.now.upgrade) }
    {
        meet(self.domains.in_fault(node.fault), self.others)
            || meet(self.domains.in_upgrade(node.upgrade), self.members)
    }

    /// Adds the nodes in the domains that the seats bar to the barred nodes.
    fn bar(&self, table: &SlotTable, barred_nodes: &mut BarredNodes)
        ensures { (b : Barred) → AreBarredNodes (slots_of table.now).nodes b barred_nodes.old → AreBarredNodes (slots_of table.now).nodes (joined b (seats_bar self.now)) barred_nodes.new }
    {
        for fragment in Fragment::all().iter() {
            self.bar_fault(table, barred_nodes, *fragment);
            self.bar_upgrade(table, barred_nodes, *fragment);
        }
    }

    /// Adds the nodes of the fault domain of a fragment's seat to the barred nodes, if it is one of the others.
    fn bar_fault(&self, table: &SlotTable, barred_nodes: &mut BarredNodes, fragment: Fragment)
        ensures { (b : Barred) → AreBarredNodes (slots_of table.now).nodes b barred_nodes.old
            → AreBarredNodes (slots_of table.now).nodes (with_seat_fault b self.now.domains.now.faults self.now.others.bits fragment) barred_nodes.new }
    {
        if self.others.contains(fragment) {
            let domain = self.domains.faults[fragment.value as usize];
            table.bar_fault_in(barred_nodes, FaultNo { value: domain });
        }
    }

    /// Adds the nodes of the upgrade domain of a fragment's seat to the barred nodes, if it is one of the members.
    fn bar_upgrade(&self, table: &SlotTable, barred_nodes: &mut BarredNodes, fragment: Fragment)
        ensures { (b : Barred) → AreBarredNodes (slots_of table.now).nodes b barred_nodes.old
            → AreBarredNodes (slots_of table.now).nodes (with_seat_upgrade b self.now.domains.now.upgrades self.now.members.bits fragment) barred_nodes.new }
    {
        if self.members.contains(fragment) {
            let domain = self.domains.upgrades[fragment.value as usize];
            table.bar_upgrade_in(barred_nodes, UpgradeNo { value: domain });
        }
    }
}

/// The seats of the other fragments of a stripe, and what else bars nodes for a fragment.
#[derive(Drop)]
pub struct Neighbours<'a> {
    pub homes: OtherSeats<'a>,
    pub targets: OtherSeats<'a>,
    pub more: &'a BarredDomains,
}

impl<'a> Neighbours<'a> {
    /// Whether the node is in a domain that one of the seats bars.
    fn are_near(&self, node: &NodeInfo) -> bool
        ensures { result ≡ (((seats_bar self.now.homes).faults node.now.fault || (seats_bar self.now.homes).upgrades node.now.upgrade)
            || ((seats_bar self.now.targets).faults node.now.fault || (seats_bar self.now.targets).upgrades node.now.upgrade)) }
    {
        self.homes.are_near(node) || self.targets.are_near(node)
    }
}

impl<'a> Barring for Neighbours<'a> {
    ghost use Rattle.lrc_bars.specs.Neighbouring.{barred_by};

    ghost barred = { barred_by };

    fn bars(&self, node: &NodeInfo) -> bool {
        self.are_near(node) || self.more.bars(node)
    }

    fn nodes_in(&self, table: &SlotTable) -> BarredNodes {
        let mut barred_nodes = self.more.nodes_in(table);
        self.targets.bar(table, &mut barred_nodes);
        self.homes.bar(table, &mut barred_nodes);
        barred_nodes
    }
}

/// Whether two sets have a fragment in common.
fn meet(one: LossMask, other: LossMask) -> bool
    ensures { (domains : List ℕ) (number : ℕ) → ((f : ℕ) → bits_set one.bits f ≡ (nat_lt f 16 && nat_eq (get_or domains f 0) number))
        → result ≡ list_any (stands_in domains other.bits number) all_fragments }
{
    let met = LossMask::from_bits(one.bits & other.bits);
    met.bits != 0
}
