ghost use Rattle.std.specs.Prelude.{◌≡◌, ◌<◌, ◌++◌, ◌∷◌, List, [], Option, Some, None};
ghost use Rattle.lrc_code.specs.declared.codes.Code.{Code};
ghost use Rattle.lrc_code.specs.Codes.{class_of};
ghost use Rattle.lrc_code.specs.declared.numbers.UpgradeNo.{UpgradeNo};
ghost use Rattle.lrc_topology.specs.declared.NodeInfo.{NodeInfo};
ghost use Rattle.lrc_topology.specs.declared.seat.Held.{Held};
ghost use Rattle.lrc_topology.specs.Nodes.{node_at};
ghost use Rattle.lrc_slots.specs.Tables.{slots_of};
ghost use Rattle.lrc_bars.specs.Planning.{AreBarsOf, index_of_class, upgrades_for};

use lrc_code::Class;
use lrc_slots::{BarredNodes, SlotTable};
use lrc_topology::NodeInfo;

/// The nodes that the planned seats of a stripe bar: by their fault domains for all fragments, and by their upgrade
/// domains for the fragments of each class.
#[derive(Drop)]
pub struct ClassBars {
    pub faults: BarredNodes,
    pub upgrades: [BarredNodes; 3],
}

impl ClassBars {
    /// Bars no node.
    pub fn new() -> ClassBars
        ensures { (nodes : List NodeInfo) (code : Code) → AreBarsOf nodes code None [] result }
    {
        ClassBars {
            faults: BarredNodes::new(),
            upgrades: [BarredNodes::new(), BarredNodes::new(), BarredNodes::new()],
        }
    }

    /// The nodes that are barred for the fragments of a class by their upgrade domains.
    pub fn of(&self, class: Class) -> &BarredNodes
        ensures { result.now ≡ upgrades_for self.now class }
    {
        &self.upgrades[index_of(class)]
    }

    /// Bars the domains of a node that gets a fragment: its fault domain for all fragments, and its upgrade domain for the
    /// fragments of the same class.
    pub fn bar(&mut self, table: &SlotTable, node: &NodeInfo, class: Class)
        ensures { (code : Code) (upgrading : Option UpgradeNo) (seats : List Held) (h : Held) → node_at (slots_of table.now).nodes h.seat.node ≡ Some node.now
            → class_of code h.fragment.value ≡ Some class
            → AreBarsOf (slots_of table.now).nodes code upgrading seats self.old → AreBarsOf (slots_of table.now).nodes code upgrading (seats ++ h ∷ []) self.new }
    {
        table.bar_fault_in(&mut self.faults, node.fault);
        let of_class = &mut self.upgrades[index_of(class)];
        table.bar_upgrade_in(of_class, node.upgrade);
    }
}

/// The index in `ClassBars::upgrades` of the nodes that are barred for a class.
fn index_of(class: Class) -> usize
    ensures value { result ≡ index_of_class class }
    ensures few { result < 3 }
{
    class as usize
}
