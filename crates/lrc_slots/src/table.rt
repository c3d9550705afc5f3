ghost use Rattle.std.specs.Prelude.{◌≡◌, ◌≤◌, ◌<◌, length, IsSome, IsSomeAnd, IsTrue, IsFalse, IfSome, IfOk, IfErr, map, filter, option_copied, option_map, is_some, Some, All, Contains};
ghost use Rattle.lrc_code.specs.declared.fault.Fault.TheVariants.{OutOfMemory};
ghost use Rattle.lrc_code.specs.Order.{least};
ghost use Rattle.lrc_topology.specs.Nodes.{AreNodes, node_at};
ghost use Rattle.lrc_slots.specs.Slots.{all_free, least_free, least_free_at, load_at, with_taken, with_free, with_eligible};
ghost use Rattle.lrc_slots.specs.Next.{next_node, next_number};
ghost use Rattle.lrc_slots.specs.Tables.{row_at, slots_of, barred};
ghost use Rattle.lrc_slots.specs.Barred.{Barred, no_bars, joined, with_fault, with_upgrade};
ghost use Rattle.lrc_slots.specs.BarredNodes.{AreBarredNodes};
ghost use Rattle.lrc_slots.specs.Rows.{fresh_row, position_of, alone, is_open, precedes};

use crate::node_slots::NodeSlots;
use crate::ordinal_sets::OrdinalSets;
use crate::{BarredDomains, BarredNodes, Barring, OpenNode, OpenRow, setup};
use lrc_code::{Fault, FaultNo, NodeNo, UpgradeNo};
use lrc_topology::{NodeIndex, NodeInfo, Topology};
use std::alloc::{AllocError, Global};
use std::marker::Model;

/// The nodes of a topology, which of their slots are taken, and which nodes are eligible for new seats.
///
/// A call on a node needs a node of that topology; `SlotTable::node` is the test.
#[derive(Drop)]
pub struct SlotTable {
    /// One row for each node, in file order.
    pub(crate) rows: Vec<NodeSlots>,
    /// Finds the row of a node by its number.
    index: NodeIndex,
    /// The ordinal of each row's node: the number of nodes with a lower number.
    ordinals: Vec<u16>,
    /// The position of the row with each ordinal.
    pub(crate) order: Vec<u16>,
    /// The load of each row: the number of its taken slots.
    loads: Vec<u16>,
    /// The nodes that take seats, by load: those that are eligible and have a free slot.
    pub(crate) by_load: OrdinalSets,
    /// All nodes, by fault domain.
    pub(crate) by_fault: OrdinalSets,
    /// All nodes, by upgrade domain.
    pub(crate) by_upgrade: OrdinalSets,
}

impl Model for SlotTable {
    ghost use Rattle.lrc_slots.specs.Tables.{Table};
    ghost use Rattle.lrc_slots.specs.Indexes.{AreIndexed};

    ghost Value = { Table };

    ghost view = { λ t. t.rows.items };

    ghost invariant = { λ t. AreIndexed t.rows.items t.index t.ordinals.items t.order.items t.loads.items t.by_load t.by_fault t.by_upgrade };
}

impl SlotTable {
    /// Makes the table of a topology, with every node eligible and every slot free.
    ///
    /// # Errors
    ///
    /// Only `Fault::OutOfMemory`.
    pub fn new(alloc: Global, topology: &Topology) -> Result<SlotTable, Fault>
        ensures value { IfOk result (λ t. slots_of t ≡ all_free topology.now) }
        ensures err { IfErr result (λ e. e ≡ OutOfMemory) }
    {
        let index = NodeIndex::new(alloc, topology)?;
        let rows = setup::rows(alloc, topology)?;
        Ok(SlotTable::of_rows(alloc, rows, index)?)
    }

    /// Makes the table of these rows and builds its indexes.
    fn of_rows(
        alloc: Global,
        rows: Vec<NodeSlots>,
        index: NodeIndex,
    ) -> Result<SlotTable, AllocError>
        requires nodes { AreNodes (map (λ r. r.node) rows.items) }
        requires numbers { index ≡ map (λ r. r.node.number) rows.items }
        requires fresh { All (λ r. r ≡ fresh_row r.node) rows.items }
        ensures { IfOk result (λ t. t ≡ rows.items) }
    {
        let ordinals = setup::ordinals(alloc, &rows)?;
        let order = setup::order(alloc, &ordinals)?;
        let loads = setup::zeros(alloc, rows.len())?;
        let by_load = setup::sets_by(alloc, &loads, &ordinals)?;
        let by_fault = setup::sets_by_fault(alloc, &rows, &ordinals)?;
        let by_upgrade = setup::sets_by_upgrade(alloc, &rows, &ordinals)?;
        Ok(SlotTable {
            rows,
            index,
            ordinals,
            order,
            loads,
            by_load,
            by_fault,
            by_upgrade,
        })
    }

    /// Returns the node of a number, or `None` if there is none.
    pub fn node(&self, number: NodeNo) -> Option<NodeInfo>
        ensures { result ≡ node_at (slots_of self.now).nodes number }
    {
        let row = self.row_of(number)?;
        Some(*row.node())
    }

    /// Returns the lowest free slot of a node, or `None` if all are taken.
    pub fn first_free(&self, node: NodeNo) -> Option<u16>
        requires { IsSome (node_at (slots_of self.now).nodes node) }
        ensures { result ≡ least_free_at (slots_of self.now) node }
    {
        let row = &self.rows[self.known_position(node)];
        row.first_free()
    }

    /// Takes and returns the lowest free slot of a node. Returns `None`, with no change, if all are taken.
    pub fn take(&mut self, node: NodeNo) -> Option<u16>
        requires { IsSome (node_at (slots_of self.old).nodes node) }
        ensures slot { result ≡ least_free_at (slots_of self.old) node }
        ensures taken { slots_of self.new ≡ with_taken (slots_of self.old) node result }
    {
        let slot = self.first_free(node)?;
        self.take_slot(node, slot);
        Some(slot)
    }

    /// Takes a slot of a node, which must be free; `is_taken` is the test.
    #[inline(always)]
    pub fn take_slot(&mut self, node: NodeNo, slot: u16)
        requires within { IsSomeAnd (node_at (slots_of self.old).nodes node) (λ n. slot < n.slots) }
        requires free { IsFalse ((slots_of self.old).taken node slot) }
        ensures { slots_of self.new ≡ with_taken (slots_of self.old) node (Some slot) }
    {
        let position = self.known_position(node);
        let load = self.loads[position];
        let row = &mut self.rows[position];
        let lighter = row.listing_with_room(load);
        row.take(slot);
        let more = load + 1;
        let heavier = row.listing(more);
        self.loads[position] = more;
        let ordinal = self.ordinals[position] as usize;
        self.by_load.relist(ordinal, lighter, heavier);
    }

    /// Frees a slot of a node, which must be taken; `is_taken` is the test.
    #[inline(always)]
    pub fn free(&mut self, node: NodeNo, slot: u16)
        requires { IsTrue ((slots_of self.old).taken node slot) }
        ensures { slots_of self.new ≡ with_free (slots_of self.old) node slot }
    {
        let position = self.known_position(node);
        let load = self.loads[position];
        let row = &mut self.rows[position];
        let heavier = row.listing(load);
        row.free(slot);
        let less = load - 1;
        let lighter = row.listing_with_room(less);
        self.loads[position] = less;
        let ordinal = self.ordinals[position] as usize;
        self.by_load.relist(ordinal, heavier, lighter);
    }

    /// Returns the number of taken slots of a node, at most 256.
    pub fn load(&self, node: NodeNo) -> u32
        requires { IsSome (node_at (slots_of self.now).nodes node) }
        ensures value { result ≡ load_at (slots_of self.now) node }
        ensures few { result ≤ 256 }
    {
        self.loads[self.known_position(node)] as u32
    }

    /// Returns the load of each node, in file order.
    pub fn loads(&self) -> &[u16]
        ensures value { result.now ≡ map (λ n. load_at (slots_of self.now) n.number) (slots_of self.now).nodes }
        ensures few { All (λ load. load ≤ 256) result.now }
    {
        self.loads.as_slice()
    }

    /// Sets whether a node is eligible for new seats.
    pub fn set_eligible(&mut self, node: NodeNo, eligible: bool)
        requires { IsSome (node_at (slots_of self.old).nodes node) }
        ensures { slots_of self.new ≡ with_eligible (slots_of self.old) node eligible }
    {
        let position = self.known_position(node);
        let load = self.loads[position];
        let row = &mut self.rows[position];
        let before = row.listing(load);
        row.set_eligible(eligible);
        let after = row.listing(load);
        let ordinal = self.ordinals[position] as usize;
        self.by_load.relist(ordinal, before, after);
    }

    /// Reports whether a slot of a node is taken. Returns `false` after the node's last slot, and for a node that is
    /// not in the topology.
    pub fn is_taken(&self, node: NodeNo, slot: u16) -> bool
        ensures value { result ≡ (slots_of self.now).taken node slot }
        ensures within { IsTrue result → IsSomeAnd (node_at (slots_of self.now).nodes node) (λ n. slot < n.slots) }
    {
        match self.row_of(node) {
            Some(row) => row.is_taken(slot),
            None => false,
        }
    }

    /// Returns the node that gets the next seat: the one with the least load of those that are eligible, have a free
    /// slot and are in no barred domain; among equal loads, the one with the lowest number. Returns `None` if there
    /// is no such node.
    pub fn choose(&self, bars: &BarredDomains) -> Option<NodeNo>
        ensures node { result ≡ next_number (slots_of self.now) (barred bars.now) }
        ensures known { IfSome result (λ n. IsSome (node_at (slots_of self.now).nodes n)) }
    {
        let row = self.first_beside(bars)?;
        Some(row.number())
    }

    /// Adds the nodes of a fault domain to the barred nodes.
    pub fn bar_fault_in(&self, barred_nodes: &mut BarredNodes, domain: FaultNo)
        ensures { (b : Barred) → AreBarredNodes (slots_of self.now).nodes b barred_nodes.old
            → AreBarredNodes (slots_of self.now).nodes (with_fault b domain) barred_nodes.new }
    {
        barred_nodes.bar(self.by_fault.ordinals_of(domain.value as usize));
    }

    /// Adds the nodes of an upgrade domain to the barred nodes.
    pub fn bar_upgrade_in(&self, barred_nodes: &mut BarredNodes, domain: UpgradeNo)
        ensures { (b : Barred) → AreBarredNodes (slots_of self.now).nodes b barred_nodes.old
            → AreBarredNodes (slots_of self.now).nodes (with_upgrade b domain) barred_nodes.new }
    {
        barred_nodes.bar(self.by_upgrade.ordinals_of(domain.value as usize));
    }

    /// Returns the node that `choose` returns, and its lowest free slot.
    pub fn open_beside<B: Barring>(&self, bars: &B) -> Option<OpenNode>
        ensures node { option_map (λ o. o.node) result ≡ next_node (slots_of self.now) (B.barred bars.now) }
        ensures slot { IfSome result (λ o. least_free_at (slots_of self.now) o.node.number ≡ Some o.slot) }
    {
        let row = self.first_beside(bars)?;
        Some(row.open())
    }

    /// Returns the node that `choose` returns if the domains behind both sets are barred, and its lowest free slot.
    pub fn row_outside(&self, barred_nodes: &BarredNodes, more: &BarredNodes) -> Option<OpenRow<'_>>
        ensures node { (b c : Barred) → AreBarredNodes (slots_of self.now).nodes b barred_nodes.now → AreBarredNodes (slots_of self.now).nodes c more.now
            → option_map (λ o. o.node.now) result ≡ next_node (slots_of self.now) (joined b c) }
        ensures slot { IfSome result (λ o. least_free_at (slots_of self.now) o.node.now.number ≡ Some o.slot) }
    {
        let row = self.first_outside_both(barred_nodes, more)?;
        Some(row.open_row())
    }

    /// Reports whether some node gets a seat if no domain is barred.
    pub fn has_open_node(&self) -> bool
        ensures { result ≡ is_some (next_number (slots_of self.now) no_bars) }
    {
        self.by_load.has_any()
    }

    /// Returns the row of the node that gets the next seat if the nodes of both sets are barred.
    pub(crate) fn first_outside_both(
        &self,
        barred_nodes: &BarredNodes,
        more: &BarredNodes,
    ) -> Option<&NodeSlots>
        ensures row { (b c : Barred) → AreBarredNodes (map (λ r. r.node) self.now) b barred_nodes.now → AreBarredNodes (map (λ r. r.node) self.now) c more.now
            → option_copied result ≡ least precedes (filter (is_open (joined b c)) self.now) }
        ensures known { IfSome result (λ r. Contains self.now r.now) }
        ensures room { IfSome result (λ r. IsSome (least_free (alone r.now) r.now.node)) }
        ensures nodes { AreNodes (map (λ r. r.node) self.now) }
    {
        let ordinal = self
            .by_load
            .first_outside_both(barred_nodes.ordinals(), more.ordinals())?;
        let position = self.order[ordinal] as usize;
        Some(&self.rows[position])
    }

    /// Returns the row of a node, or `None` if the node is not in the topology.
    fn row_of(&self, node: NodeNo) -> Option<&NodeSlots>
        ensures { option_copied result ≡ row_at self.now node }
    {
        let position = self.position(node)?;
        Some(&self.rows[position])
    }

    /// Returns the position of a node's row, or `None` if the node is not in the topology.
    fn position(&self, node: NodeNo) -> Option<usize>
        ensures { result ≡ position_of self.now node }
    {
        self.index.place(node)
    }

    /// Returns the position of the row of a node of the topology.
    fn known_position(&self, node: NodeNo) -> usize
        requires { IsSome (node_at (slots_of self.now).nodes node) }
        ensures value { position_of self.now node ≡ Some result }
        ensures within { result < length self.now }
    {
        self.index.place_of(node)
    }

    /// Returns the row of a node of the topology.
    fn known_row(&self, node: NodeNo) -> &NodeSlots
        requires { IsSome (node_at (slots_of self.now).nodes node) }
        ensures { row_at self.now node ≡ Some result.now }
    {
        &self.rows[self.known_position(node)]
    }
}
