ghost use Rattle.std.specs.Prelude.{◌≡◌, ℕ, ◌<◌, ◌&&◌, nat_lt, true, false, replicate, get_or, slice_set};
ghost use Rattle.lrc_code.specs.Losses.{bits_set};

use lrc_bits::BitSet;
use lrc_code::{LossMask, UpgradeNo};
use lrc_homes::HomeDomains;
use std::marker::Model;

/// The upgrade domains whose nodes are upgrading.
#[derive(Drop)]
pub struct UpgradingDomains {
    domains: BitSet<4>,
    /// Whether there is any.
    some: bool,
    /// The only one, where it is known.
    only: Option<UpgradeNo>,
}

impl Model for UpgradingDomains {
    ghost use Rattle.std.specs.Prelude.{◌≡◌, ℕ, Bool, false, List, length, get_or, nat_eq, IfSome};

    ghost Value = { List Bool };

    ghost view = { λ u. u.domains };

    ghost invariant = { λ u. record { long : length u.domains ≡ 256; none : u.some ≡ false → (k : ℕ) → get_or u.domains k false ≡ false; only : IfSome u.only (λ d. (k : ℕ) → get_or u.domains k false ≡ nat_eq k d.value) } };
}

impl UpgradingDomains {
    /// No domain.
    pub(crate) fn new() -> UpgradingDomains
        ensures { result ≡ replicate 256 false }
    {
        UpgradingDomains {
            domains: BitSet::new(),
            some: false,
            only: None,
        }
    }

    /// Adds a domain or removes it.
    pub(crate) fn set(&mut self, domain: UpgradeNo, is_upgrading: bool)
        ensures { self.new ≡ slice_set self.old domain.value is_upgrading }
    {
        if is_upgrading {
            self.domains.insert(domain.value as usize);
            self.only = if self.some { None } else { Some(domain) };
        } else {
            self.domains.remove(domain.value as usize);
            self.only = None;
        }
        self.some = !self.domains.is_empty();
    }

    /// Whether there is no such domain. `true` tells that there is none.
    pub(crate) fn is_empty(&self) -> bool
        ensures { result ≡ true → (k : ℕ) → get_or self.now k false ≡ false }
    {
        !self.some
    }

    /// The fragments for which one of these upgrade domains is stored.
    pub(crate) fn fragments_in(&self, domains: &HomeDomains) -> LossMask
        ensures few { result.bits < 65536 }
        ensures on { (f : ℕ) → bits_set result.bits f ≡ (nat_lt f 16 && get_or self.now (get_or domains.now.upgrades f 0) false) }
    {
        if !self.some {
            return LossMask::from_bits(0);
        }
        if let Some(domain) = self.only {
            return domains.in_upgrade(domain);
        }
        self.fragments_among(domains)
    }

    /// The same where there is such a domain.
    #[inline(never)] // with none or one it is not called as a rule
    fn fragments_among(&self, domains: &HomeDomains) -> LossMask
        ensures few { result.bits < 65536 }
        ensures on { (f : ℕ) → bits_set result.bits f ≡ (nat_lt f 16 && get_or self.now (get_or domains.now.upgrades f 0) false) }
    {
        let mut bits = 0;
        let mut left = self.domains.members();
        while let Some(number) = left.next_member() {
            let domain = UpgradeNo {
                value: number as u8,
            };
            bits |= domains.in_upgrade(domain).bits;
        }
        LossMask::from_bits(bits)
    }
}
