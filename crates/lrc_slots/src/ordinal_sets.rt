ghost use Rattle.std.specs.Prelude.{◌≡◌, ℕ, ◌+◌, ◌<◌, ◌≤◌, ◌||◌, ◌&&◌, ◌⊎◌, if◌then◌else◌, nat_eq, not, true, false, length, get_or, IfOk, IsTrue, IsFalse};
ghost use Rattle.lrc_slots.specs.Indexes.{listed, same_key, is_listing_of, FindsLeast, is_of_either};

use crate::listing::Listing;
use crate::ordinal_set::OrdinalSet;
use lrc_bits::{BitSet, Members};
use std::alloc::{AllocError, Global};
use std::marker::Model;

/// Sets of nodes, one for each value of a key below 256: the load, the fault domain or the upgrade domain. A node is
/// stored as its ordinal.
#[derive(Drop)]
pub(crate) struct OrdinalSets {
    /// The set of each key.
    sets: Vec<OrdinalSet>,
    /// The keys with a set that is not empty.
    used: BitSet<4>,
}

impl Model for OrdinalSets {
    ghost use Rattle.std.specs.Prelude.{List, Bool};
    ghost use Rattle.lrc_slots.specs.Indexes.{AreSets};

    ghost Value = { List (List Bool) };

    ghost view = { λ s. s.sets.items };

    ghost invariant = { λ s. AreSets s.sets.items s.used };
}

impl OrdinalSets {
    /// Returns empty sets.
    pub(crate) fn new(alloc: Global) -> Result<OrdinalSets, AllocError>
        ensures { IfOk result (λ s. (l r : ℕ) → listed s l r ≡ false) }
    {
        let mut sets = Vec::with_capacity(alloc, 256)?;
        for _ in 0..256usize {
            sets.push(OrdinalSet::new())?;
        }
        Ok(OrdinalSets {
            sets,
            used: BitSet::new(),
        })
    }

    /// Adds a node to the set of a load.
    #[inline(always)]
    pub(crate) fn insert(&mut self, load: usize, ordinal: usize)
        requires load { load < 256 }
        requires ordinal { ordinal < 512 }
        ensures { (l r : ℕ) → listed self.new l r ≡ (listed self.old l r || same_key load ordinal l r) }
    {
        let set = &mut self.sets[load];
        let is_used = set.has_near(ordinal);
        set.insert(ordinal);
        if !is_used {
            self.used.insert(load);
        }
    }

    /// Removes a node from the set of a load.
    #[inline(always)]
    pub(crate) fn remove(&mut self, load: usize, ordinal: usize)
        requires load { load < 256 }
        requires ordinal { ordinal < 512 }
        ensures { (l r : ℕ) → listed self.new l r ≡ (listed self.old l r && not (same_key load ordinal l r)) }
    {
        let set = &mut self.sets[load];
        let is_empty = set.remove(ordinal);
        if is_empty {
            self.used.remove(load);
        }
    }

    /// Reports whether any set has a node.
    pub(crate) fn has_any(&self) -> bool
        ensures some { IsTrue result → (l r : ℕ) × (listed self.now l r ≡ true) }
        ensures none { IsFalse result → (l r : ℕ) → listed self.now l r ≡ false }
    {
        self.used.first().is_some()
    }

    /// Returns the first ordinal, by load and then by ordinal, that is in neither mask.
    #[inline(always)]
    pub(crate) fn first_outside_both(&self, mask: &BitSet<8>, other: &BitSet<8>) -> Option<usize>
        ensures { FindsLeast self.now (is_of_either mask.now other.now) result }
    {
        let least = self.used.first()?;
        let set = &self.sets[least];
        if let Some(ordinal) = set.first_outside_both(mask, other) {
            return Some(ordinal);
        }
        self.first_above_outside_both(least, mask, other)
    }

    /// Returns the same, given that every ordinal with a load up to `least` is in a mask.
    #[inline(never)] // rarely called: the search of the least load nearly always finds one
    fn first_above_outside_both(
        &self,
        least: usize,
        mask: &BitSet<8>,
        other: &BitSet<8>,
    ) -> Option<usize>
        requires least { least < 256 }
        requires below { (l r : ℕ) → l ≤ least → listed self.now l r ≡ true → is_of_either mask.now other.now r ≡ true }
        ensures { FindsLeast self.now (is_of_either mask.now other.now) result }
    {
        let mut from = least + 1;
        while let Some(load) = self.used.first_from(from) {
            let set = &self.sets[load];
            if let Some(ordinal) = set.first_outside_both(mask, other) {
                return Some(ordinal);
            }
            from = load + 1;
        }
        None
    }

    /// Returns an iterator over the keys with a node.
    pub(crate) fn used(&self) -> Members<'_>
        ensures long { length result ≡ 256 }
        ensures covered { (l r : ℕ) → listed self.now l r ≡ true → get_or result l false ≡ true }
    {
        self.used.members()
    }

    /// Returns the set of a key.
    pub(crate) fn under(&self, number: usize) -> &OrdinalSet
        requires { number < 256 }
        ensures { (r : ℕ) → get_or result.now r false ≡ listed self.now number r }
    {
        &self.sets[number]
    }

    /// Returns the ordinals of a key as a plain set.
    pub(crate) fn ordinals_of(&self, number: usize) -> &BitSet<8>
        requires { number < 256 }
        ensures long { length result.now ≡ 512 }
        ensures members { (r : ℕ) → get_or result.now r false ≡ listed self.now number r }
    {
        self.sets[number].ordinals()
    }

    /// Moves a node from the load that it was listed with, if it was listed, to its new load, if it takes seats.
    #[inline(always)]
    pub(crate) fn relist(&mut self, ordinal: usize, before: Listing, after: Listing)
        requires ordinal { ordinal < 512 }
        requires before { IsTrue before.is_open → before.load < 256 }
        requires after { IsTrue after.is_open → after.load < 256 }
        requires shown { (k : ℕ) → listed self.old k ordinal ≡ is_listing_of before k }
        ensures { (k r : ℕ) → listed self.new k r ≡ (if nat_eq ordinal r then is_listing_of after k else listed self.old k r) }
    {
        self.unlist(ordinal, before);
        self.enlist(ordinal, after);
    }

    /// Removes a node from the set of its load, if it is listed.
    #[inline(always)]
    fn unlist(&mut self, ordinal: usize, listing: Listing)
        requires ordinal { ordinal < 512 }
        requires few { IsTrue listing.is_open → listing.load < 256 }
        requires shown { (k : ℕ) → listed self.old k ordinal ≡ is_listing_of listing k }
        ensures { (k r : ℕ) → listed self.new k r ≡ (if nat_eq ordinal r then false else listed self.old k r) }
    {
        if listing.is_open {
            self.remove(listing.load as usize, ordinal);
        }
    }

    /// Adds a node that is not listed to the set of its load, if it takes seats.
    #[inline(always)]
    fn enlist(&mut self, ordinal: usize, listing: Listing)
        requires ordinal { ordinal < 512 }
        requires few { IsTrue listing.is_open → listing.load < 256 }
        requires none { (k : ℕ) → listed self.old k ordinal ≡ false }
        ensures { (k r : ℕ) → listed self.new k r ≡ (if nat_eq ordinal r then is_listing_of listing k else listed self.old k r) }
    {
        if listing.is_open {
            self.insert(listing.load as usize, ordinal);
        }
    }

    /// Adds the nodes of all these keys to a mask.
    pub(crate) fn join(&self, named: &BitSet<4>, mask: &mut BitSet<8>)
        requires { length named.now ≡ 256 }
        ensures same { length mask.new ≡ length mask.old }
        ensures only { (r : ℕ) → get_or mask.new r false ≡ true
            → (get_or mask.old r false ≡ true) ⊎ ((d : ℕ) × (get_or named.now d false ≡ true) × (listed self.now d r ≡ true)) }
        ensures keeps { (r : ℕ) → get_or mask.old r false ≡ true → get_or mask.new r false ≡ true }
        ensures adds { (d r : ℕ) → get_or named.now d false ≡ true → listed self.now d r ≡ true → get_or mask.new r false ≡ true }
    {
        let mut from = 0;
        while let Some(number) = named.first_from(from) {
            mask.insert_all(self.sets[number].ordinals());
            from = number + 1;
        }
    }
}
