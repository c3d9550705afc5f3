ghost use Rattle.std.specs.Prelude.{◌≡◌, ℕ, ◌||◌, false, length, get_or, List};
ghost use Rattle.lrc_topology.specs.declared.NodeInfo.{NodeInfo};
ghost use Rattle.lrc_slots.specs.Barred.{no_bars};
ghost use Rattle.lrc_slots.specs.BarredNodes.{AreBarredNodes};

use lrc_bits::BitSet;
use std::marker::Model;

/// The nodes of a table that are in barred domains. `SlotTable::bar_fault_in` and `bar_upgrade_in` add to it; one
/// value serves several choices.
#[derive(Drop)]
pub struct BarredNodes {
    ordinals: BitSet<8>,
}

impl Model for BarredNodes {
    ghost use Rattle.std.specs.Prelude.{◌≡◌, List, Bool, length};

    ghost Value = { List Bool };

    ghost view = { λ b. b.ordinals };

    ghost invariant = { λ b. length b.ordinals ≡ 512 };
}

impl BarredNodes {
    /// Returns a set without nodes: no domain is barred.
    pub fn new() -> BarredNodes
        ensures { (nodes : List NodeInfo) → AreBarredNodes nodes no_bars result }
    {
        BarredNodes {
            ordinals: BitSet::new(),
        }
    }

    /// Returns the set of the nodes with these ordinals.
    pub(crate) fn of_ordinals(ordinals: BitSet<8>) -> BarredNodes
        requires { length ordinals ≡ 512 }
        ensures { result ≡ ordinals }
    {
        BarredNodes { ordinals }
    }

    /// Bars the nodes with these ordinals too.
    #[inline(always)]
    pub(crate) fn bar(&mut self, ordinals: &BitSet<8>)
        ensures { (r : ℕ) → get_or self.new r false ≡ (get_or self.old r false || get_or ordinals.now r false) }
    {
        self.ordinals.insert_all(ordinals);
    }

    /// Returns the ordinals of the barred nodes.
    pub(crate) fn ordinals(&self) -> &BitSet<8>
        ensures { result.now ≡ self.now }
    {
        &self.ordinals
    }
}
