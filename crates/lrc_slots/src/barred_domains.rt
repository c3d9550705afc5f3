ghost use Rattle.std.specs.Prelude.{◌≡◌, ℕ, ◌↔◌, ◌⊎◌, ◌||◌, true, false, get_or};
ghost use Rattle.lrc_slots.specs.Indexes.{IsJoined};
ghost use Rattle.lrc_slots.specs.Barred.{no_bars, with_fault, with_upgrade};
ghost use Rattle.lrc_slots.specs.Tables.{barred};

use crate::ordinal_sets::OrdinalSets;
use crate::{BarredNodes, Barring, SlotTable};
use lrc_bits::BitSet;
use lrc_code::{FaultNo, UpgradeNo};
use lrc_topology::NodeInfo;
use std::marker::Model;

/// The barred domains: none of their nodes is chosen.
#[derive(Drop)]
pub struct BarredDomains {
    faults: BitSet<4>,
    upgrades: BitSet<4>,
}

impl Model for BarredDomains {
    ghost use Rattle.lrc_slots.specs.Tables.{Bars};

    ghost Value = { Bars };

    ghost view = { λ t. record { faults = t.faults; upgrades = t.upgrades } };

    ghost use Rattle.std.specs.Prelude.{◌≡◌, length};

    ghost invariant = { λ t. (length t.faults ≡ 256) × (length t.upgrades ≡ 256) };
}

impl BarredDomains {
    /// Returns a value that bars no domain.
    pub fn new() -> BarredDomains
        ensures { barred result ≡ no_bars }
    {
        BarredDomains {
            faults: BitSet::new(),
            upgrades: BitSet::new(),
        }
    }

    /// Bars a fault domain too.
    pub fn bar_fault(&mut self, domain: FaultNo)
        ensures { barred self.new ≡ with_fault (barred self.old) domain }
    {
        self.faults.insert(domain.value as usize);
    }

    /// Bars an upgrade domain too.
    pub fn bar_upgrade(&mut self, domain: UpgradeNo)
        ensures { barred self.new ≡ with_upgrade (barred self.old) domain }
    {
        self.upgrades.insert(domain.value as usize);
    }

    /// Returns the nodes of the barred domains.
    pub(crate) fn nodes(&self, by_fault: &OrdinalSets, by_upgrade: &OrdinalSets) -> BarredNodes
        ensures { (r : ℕ) → (get_or result r false ≡ true) ↔ (IsJoined self.now.faults by_fault.now r ⊎ IsJoined self.now.upgrades by_upgrade.now r) }
    {
        let mut ordinals = BitSet::new();
        by_fault.join(&self.faults, &mut ordinals);
        by_upgrade.join(&self.upgrades, &mut ordinals);
        BarredNodes::of_ordinals(ordinals)
    }
}

impl Barring for BarredDomains {
    ghost use Rattle.lrc_slots.specs.Tables as tables;

    ghost barred = { tables.barred };

    fn bars(&self, node: &NodeInfo) -> bool {
        self.faults.contains(node.fault.value as usize)
            || self.upgrades.contains(node.upgrade.value as usize)
    }

    fn nodes_in(&self, table: &SlotTable) -> BarredNodes {
        self.nodes(&table.by_fault, &table.by_upgrade)
    }
}
