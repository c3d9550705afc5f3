ghost use Rattle.std.specs.Prelude.{◌≡◌, ◌||◌};
ghost use Rattle.lrc_slots.specs.Barred.{Barred};
ghost use Rattle.lrc_slots.specs.BarredNodes.{AreBarredNodes};
ghost use Rattle.lrc_slots.specs.Tables.{slots_of};

use crate::{BarredNodes, SlotTable};
use lrc_topology::NodeInfo;

/// Barred domains, in a form that tells which nodes are in them.
pub trait Barring {
    // The domains whose nodes are not chosen.
    ghost barred: { Self → Barred };

    /// Reports whether the node is in a barred domain.
    fn bars(&self, node: &NodeInfo) -> bool
        ensures { result ≡ ((barred self.now).faults node.now.fault || (barred self.now).upgrades node.now.upgrade) };

    /// Returns the nodes of the table that are in barred domains.
    fn nodes_in(&self, table: &SlotTable) -> BarredNodes
        ensures { AreBarredNodes (slots_of table.now).nodes (barred self.now) result };
}
