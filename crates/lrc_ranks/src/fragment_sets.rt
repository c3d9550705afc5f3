ghost use Rattle.std.specs.Prelude.{◌≡◌, ℕ, ◌<◌, ◌/◌, ◌%◌, ◌&&◌, ◌||◌, not, nat_eq, false, if◌then◌else◌};
ghost use Rattle.lrc_code.specs.Numbers.{same_stripe};
ghost use Rattle.lrc_code.specs.Losses.{bits_set};
ghost use Rattle.lrc_code.specs.declared.numbers.StripeNo.{StripeNo as AnyStripe};
ghost use Rattle.lrc_ranks.specs.Sets.{at_fragment};

use crate::stripe_set::StripeSet;
use lrc_code::{FRAGMENTS, Fragment, LossMask, StripeNo};
use std::marker::Model;

/// A set of stripes for each fragment number.
#[derive(Drop)]
pub struct FragmentSets {
    sets: [StripeSet; FRAGMENTS],
}

impl Model for FragmentSets {
    ghost use Rattle.std.specs.Prelude.{◌≡◌, Bool, List, length};

    ghost Value = { List (List Bool) };

    ghost view = { λ x. x.sets };

    ghost invariant = { λ x. length x.sets ≡ 16 };
}

impl FragmentSets {
    /// Returns the empty sets.
    pub fn new() -> FragmentSets
        ensures { at_fragment result ≡ λ f s. false }
    {
        FragmentSets {
            sets: [
                StripeSet::new(),
                StripeSet::new(),
                StripeSet::new(),
                StripeSet::new(),
                StripeSet::new(),
                StripeSet::new(),
                StripeSet::new(),
                StripeSet::new(),
                StripeSet::new(),
                StripeSet::new(),
                StripeSet::new(),
                StripeSet::new(),
                StripeSet::new(),
                StripeSet::new(),
                StripeSet::new(),
                StripeSet::new(),
            ],
        }
    }

    /// Reports whether a stripe is in the set of a fragment.
    pub fn contains(&self, stripe: StripeNo, fragment: Fragment) -> bool
        ensures { result ≡ at_fragment self.now fragment.value stripe }
    {
        self.sets[fragment.value as usize].contains(stripe)
    }

    /// Adds a stripe to the set of a fragment.
    pub fn insert(&mut self, stripe: StripeNo, fragment: Fragment)
        ensures { (f : ℕ) (s : AnyStripe) → at_fragment self.new f s ≡ ((nat_eq f fragment.value && same_stripe stripe s) || at_fragment self.old f s) }
    {
        let set = &mut self.sets[fragment.value as usize];
        set.insert(stripe);
    }

    /// Removes a stripe from the set of a fragment.
    pub fn remove(&mut self, stripe: StripeNo, fragment: Fragment)
        ensures { (f : ℕ) (s : AnyStripe) → at_fragment self.new f s ≡ (not (nat_eq f fragment.value && same_stripe stripe s) && at_fragment self.old f s) }
    {
        let set = &mut self.sets[fragment.value as usize];
        set.remove(stripe);
    }

    /// Adds a stripe to the sets of these fragments, or removes it from them.
    pub fn put(&mut self, stripe: StripeNo, fragments: LossMask, is_in: bool)
        ensures { (f : ℕ) (s : AnyStripe) → at_fragment self.new f s ≡ (if same_stripe stripe s && bits_set fragments.bits f then is_in else at_fragment self.old f s) }
    {
        let mut left = fragments.bits;
        while left != 0 {
            let number = left.trailing_zeros();
            let set = &mut self.sets[number as usize];
            set.set(stripe, is_in);
            left &= !(1 << number);
        }
    }

    /// Adds all stripes of the other sets.
    pub fn insert_all(&mut self, other: &FragmentSets)
        ensures { (f : ℕ) (s : AnyStripe) → at_fragment self.new f s ≡ (at_fragment self.old f s || at_fragment other.now f s) }
    {
        for i in 0..FRAGMENTS {
            let set = &mut self.sets[i];
            set.insert_all(&other.sets[i]);
        }
    }

    /// Returns the stripes of a block in the set of a fragment, as bits.
    #[inline(always)]
    pub(crate) fn word(&self, fragment: usize, index: usize) -> u64
        requires known { fragment < 16 }
        requires within { index < 64 }
        ensures { (s : AnyStripe) → s.value / 64 ≡ index → bits_set result (s.value % 64) ≡ at_fragment self.now fragment s }
    {
        self.sets[fragment].word(index)
    }
}
