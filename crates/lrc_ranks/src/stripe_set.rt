ghost use Rattle.std.specs.Prelude.{◌≡◌, ◌<◌, ◌≤◌, ◌/◌, ◌%◌, ◌&&◌, ◌||◌, not, nat_eq, true, false, if◌then◌else◌};
ghost use Rattle.lrc_code.specs.Numbers.{same_stripe};
ghost use Rattle.lrc_code.specs.declared.numbers.StripeNo.{StripeNo as AnyStripe};
ghost use Rattle.lrc_code.specs.Losses.{bits_set};
ghost use Rattle.lrc_ranks.specs.Sets.{FindsNext, has};

use crate::stripe_members::StripeMembers;
use lrc_bits::BitSet;
use lrc_code::{STRIPES, StripeNo};
use std::marker::Model;

/// The number of blocks of 64 stripes.
const BLOCKS: usize = STRIPES / 64;

/// A set of stripes.
#[derive(Drop)]
pub struct StripeSet {
    bits: BitSet<64>,
}

impl Model for StripeSet {
    ghost use Rattle.std.specs.Prelude.{◌≡◌, Bool, List, length};

    ghost Value = { List Bool };

    ghost view = { λ s. s.bits };

    ghost invariant = { λ s. length s.bits ≡ 4096 };
}

impl StripeSet {
    /// Returns the empty set.
    pub fn new() -> StripeSet
        ensures { has result ≡ λ s. false }
    {
        StripeSet {
            bits: BitSet::new(),
        }
    }

    /// Returns a copy of the set.
    pub(crate) fn again(&self) -> StripeSet
        ensures { has result ≡ has self.now }
    {
        let mut set = StripeSet::new();
        set.insert_all(self);
        set
    }

    /// Reports whether a stripe is in the set.
    pub fn contains(&self, stripe: StripeNo) -> bool
        ensures { result ≡ has self.now stripe }
    {
        self.bits.contains(stripe.value as usize)
    }

    /// Adds a stripe.
    pub fn insert(&mut self, stripe: StripeNo)
        ensures { has self.new ≡ λ s. same_stripe stripe s || has self.old s }
    {
        self.bits.insert(stripe.value as usize);
    }

    /// Removes a stripe.
    pub fn remove(&mut self, stripe: StripeNo)
        ensures { has self.new ≡ λ s. not (same_stripe stripe s) && has self.old s }
    {
        self.bits.remove(stripe.value as usize);
    }

    /// Adds a stripe or removes it.
    pub fn set(&mut self, stripe: StripeNo, is_in: bool)
        ensures { has self.new ≡ λ s. if same_stripe stripe s then is_in else has self.old s }
    {
        if is_in {
            self.insert(stripe);
        } else {
            self.remove(stripe);
        }
    }

    /// Adds all stripes of the other set.
    pub fn insert_all(&mut self, other: &StripeSet)
        ensures { has self.new ≡ λ s. has self.old s || has other.now s }
    {
        self.bits.insert_all(&other.bits);
    }

    /// Adds the stripes that are in both of two other sets.
    pub fn insert_common(&mut self, one: &StripeSet, other: &StripeSet)
        ensures { has self.new ≡ λ s. has self.old s || (has one.now s && has other.now s) }
    {
        self.bits.insert_common(&one.bits, &other.bits);
    }

    /// Removes all stripes of the other set.
    pub fn remove_all(&mut self, other: &StripeSet)
        ensures { has self.new ≡ λ s. has self.old s && not (has other.now s) }
    {
        self.bits.remove_all(&other.bits);
    }

    /// Returns the stripes of a block of 64 numbers, as bits.
    #[inline(always)]
    pub(crate) fn word(&self, index: usize) -> u64
        requires { index < 64 }
        ensures { (s : AnyStripe) → s.value / 64 ≡ index → bits_set result (s.value % 64) ≡ has self.now s }
    {
        self.bits.word(index)
    }

    /// Returns the number of blocks up to the last one that has a stripe.
    pub(crate) fn blocks(&self) -> usize
        ensures few { result ≤ 64 }
        ensures all { (s : AnyStripe) → result ≤ s.value / 64 → has self.now s ≡ false }
    {
        let mut count = BLOCKS;
        while count > 0 && self.word(count - 1) == 0 {
            count -= 1;
        }
        count
    }

    /// Sets which stripes of a block of 64 numbers are in the set, given as bits.
    #[inline(always)]
    pub(crate) fn put_word(&mut self, index: usize, word: u64)
        requires { index < 64 }
        ensures { has self.new ≡ λ s. if nat_eq (s.value / 64) index then bits_set word (s.value % 64) else has self.old s }
    {
        self.bits.put_word(index, word);
    }

    /// Returns an iterator over the stripes of the set, in rising order.
    pub fn members(&self) -> StripeMembers<'_>
        ensures { result ≡ self.now }
    {
        StripeMembers::new(&self.bits)
    }

    /// Reports whether the set has a stripe in the block of 64 numbers of this one.
    pub(crate) fn has_near(&self, stripe: StripeNo) -> bool
        ensures some { result ≡ true → (s : AnyStripe) × (s.value / 64 ≡ stripe.value / 64) × (has self.now s ≡ true) }
        ensures none { result ≡ false → (s : AnyStripe) → s.value / 64 ≡ stripe.value / 64 → has self.now s ≡ false }
    {
        self.bits.has_near(stripe.value as usize)
    }

    /// Returns the first stripe of the set from this number on.
    pub fn first_from(&self, from: usize) -> Option<StripeNo>
        ensures { FindsNext (has self.now) from result }
    {
        let number = self.bits.first_from(from)?;
        Some(StripeNo {
            value: number as u16,
        })
    }
}
