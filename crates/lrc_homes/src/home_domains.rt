ghost use Rattle.std.specs.Prelude.{◌≡◌, ℕ, ◌<◌, ◌&&◌, nat_lt, nat_eq, get_or, length, slice_set, IfOk};
ghost use Rattle.lrc_code.specs.Losses.{bits_set};

use lrc_code::{FRAGMENTS, FaultNo, Fragment, LossMask, UpgradeNo};
use lrc_topology::NodeInfo;
use std::alloc::{AllocError, Global};
use std::simd::prelude::*;

/// The fault domains and upgrade domains of the nodes with the homes of a stripe. They are arrays, so that one vector
/// instruction compares all of them with the domain of a node.
#[derive(Clone, Copy)]
pub struct HomeDomains {
    /// By fragment number; any value for a fragment without a home.
    pub faults: [u8; FRAGMENTS],
    /// By fragment number, likewise.
    pub upgrades: [u8; FRAGMENTS],
    pub ghost sixteen_faults: { length faults ≡ 16 },
    pub ghost sixteen_upgrades: { length upgrades ≡ 16 },
}

impl HomeDomains {
    /// The domains of a stripe without homes.
    pub fn none() -> HomeDomains {
        HomeDomains {
            faults: [0; FRAGMENTS],
            upgrades: [0; FRAGMENTS],
        }
    }

    /// The domains of `count` stripes without homes.
    pub fn of_none(alloc: Global, count: usize) -> Result<Vec<HomeDomains>, AllocError>
        ensures { IfOk result (λ v. length v.items ≡ count) }
    {
        vec![in alloc; HomeDomains::none(); count]
    }

    /// Stores the domains of the node with a fragment's home.
    pub fn put(&mut self, fragment: Fragment, node: &NodeInfo)
        ensures faults { self.new.faults ≡ slice_set self.old.faults fragment.value node.now.fault.value }
        ensures upgrades { self.new.upgrades ≡ slice_set self.old.upgrades fragment.value node.now.upgrade.value }
    {
        self.faults[fragment.value as usize] = node.fault.value;
        self.upgrades[fragment.value as usize] = node.upgrade.value;
    }

    /// The fragments for which this fault domain is stored.
    pub fn in_fault(&self, domain: FaultNo) -> LossMask
        ensures few { result.bits < 65536 }
        ensures on { (f : ℕ) → bits_set result.bits f ≡ (nat_lt f 16 && nat_eq (get_or self.now.faults f 0) domain.value) }
    {
        fragments_beside(&self.faults, domain.value)
    }

    /// The fragments for which this upgrade domain is stored.
    pub fn in_upgrade(&self, domain: UpgradeNo) -> LossMask
        ensures few { result.bits < 65536 }
        ensures on { (f : ℕ) → bits_set result.bits f ≡ (nat_lt f 16 && nat_eq (get_or self.now.upgrades f 0) domain.value) }
    {
        fragments_beside(&self.upgrades, domain.value)
    }
}

/// The fragments for which this number is stored. One vector instruction compares all sixteen.
fn fragments_beside(numbers: &[u8; FRAGMENTS], number: u8) -> LossMask
    ensures few { result.bits < 65536 }
    ensures on { (f : ℕ) → bits_set result.bits f ≡ (nat_lt f 16 && nat_eq (get_or numbers.now f 0) number) }
{
    let alike = u8x16::from_array(*numbers).simd_eq(u8x16::splat(number));
    LossMask::from_bits(alike.to_bitmask() as u16)
}
