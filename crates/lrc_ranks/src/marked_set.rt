ghost use Rattle.std.specs.Prelude.{◌≡◌, ◌≤◌, ◌/◌, ◌&&◌, ◌||◌, not, true, false};
ghost use Rattle.lrc_code.specs.Numbers.{same_stripe};
ghost use Rattle.lrc_code.specs.declared.numbers.StripeNo.{StripeNo as AnyStripe};
ghost use Rattle.lrc_ranks.specs.Sets.{FindsNext, has};

use crate::stripe_set::StripeSet;
use lrc_bits::BitSet;
use lrc_code::StripeNo;
use std::marker::Model;

/// A set of stripes in two levels, so that a search skips blocks without a member.
#[derive(Drop)]
pub(crate) struct MarkedSet {
    set: StripeSet,
    /// The blocks of 64 numbers that have a member.
    marks: BitSet<1>,
}

impl Model for MarkedSet {
    ghost use Rattle.std.specs.Prelude.{Bool, List};
    ghost use Rattle.lrc_ranks.specs.Kept.{AreMarked};

    ghost Value = { List Bool };

    ghost view = { λ s. s.set };

    ghost invariant = { λ s. AreMarked s.set s.marks };
}

impl MarkedSet {
    /// Returns the empty set.
    pub(crate) fn new() -> MarkedSet
        ensures { has result ≡ λ s. false }
    {
        MarkedSet {
            set: StripeSet::new(),
            marks: BitSet::new(),
        }
    }

    /// Returns the set with these stripes, all of which are in this number of blocks.
    pub(crate) fn of(set: StripeSet, blocks: usize) -> MarkedSet
        requires few { blocks ≤ 64 }
        requires all { (s : AnyStripe) → blocks ≤ s.value / 64 → has set s ≡ false }
        ensures { has result ≡ has set }
    {
        let mut marks = BitSet::new();
        for index in 0..blocks {
            if set.word(index) != 0 {
                marks.insert(index);
            }
        }
        MarkedSet { set, marks }
    }

    /// Returns a copy of the set.
    pub(crate) fn again(&self) -> MarkedSet
        ensures { has result ≡ has self.now }
    {
        let mut marks = BitSet::new();
        marks.insert_all(&self.marks);
        MarkedSet {
            set: self.set.again(),
            marks,
        }
    }

    /// Reports whether a stripe is in the set.
    pub(crate) fn contains(&self, stripe: StripeNo) -> bool
        ensures { result ≡ has self.now stripe }
    {
        self.set.contains(stripe)
    }

    /// Reports whether the set is empty.
    pub(crate) fn is_empty(&self) -> bool
        ensures none { result ≡ true → (s : AnyStripe) → has self.now s ≡ false }
        ensures some { result ≡ false → (s : AnyStripe) × (has self.now s ≡ true) }
    {
        self.marks.is_empty()
    }

    /// Adds a stripe.
    pub(crate) fn insert(&mut self, stripe: StripeNo)
        ensures { has self.new ≡ λ s. same_stripe stripe s || has self.old s }
    {
        self.set.insert(stripe);
        self.marks.insert(stripe.value as usize / 64);
    }

    /// Removes a stripe.
    pub(crate) fn remove(&mut self, stripe: StripeNo)
        ensures { has self.new ≡ λ s. not (same_stripe stripe s) && has self.old s }
    {
        self.set.remove(stripe);
        if !self.set.has_near(stripe) {
            self.marks.remove(stripe.value as usize / 64);
        }
    }

    /// Returns the first stripe of the set from this number on.
    pub(crate) fn first_from(&self, from: usize) -> Option<StripeNo>
        ensures { FindsNext (has self.now) from result }
    {
        let stretch = self.marks.first_from(from / 64)?;
        let start = from.max(stretch * 64);
        self.set.first_from(start)
    }
}
