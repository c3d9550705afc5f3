ghost use Rattle.std.specs.Prelude.{◌≡◌, ◌||◌, ◌&&◌, ℕ, ◌≤◌, true, false, if◌then◌else◌, List, nat_eq, IfSome, IfNone};
ghost use Rattle.std.specs.Iterator.{YieldsFirst};
ghost use Rattle.std.specs.List.{list_any};
ghost use Rattle.std.specs.Option.{option_map_or};
ghost use Rattle.lrc_code.specs.Numbers.{same_stripe};
ghost use Rattle.lrc_code.specs.declared.numbers.StripeNo.{StripeNo as AnyStripe};
ghost use Rattle.lrc_ranks.specs.Missing.{rank_with};
ghost use Rattle.lrc_ranks.specs.Ranks.{is_at, queue_from};
ghost use Rattle.lrc_ranks.specs.Sets.{FindsNext, at_rank, has};

use crate::block::Block;
use crate::fragment_sets::FragmentSets;
use crate::marked_set::MarkedSet;
use crate::planes::Planes;
use crate::stripe_set::StripeSet;
use lrc_code::StripeNo;
use std::marker::Model;

/// The number of ranks.
const RANKS: usize = 5;

/// A set of stripes for each rank.
#[derive(Drop)]
pub struct ByRank {
    sets: [MarkedSet; RANKS],
}

impl Model for ByRank {
    ghost use Rattle.std.specs.Prelude.{◌≡◌, Bool, List, length};

    ghost Value = { List (List Bool) };

    ghost view = { λ r. r.sets };

    ghost invariant = { λ r. length r.sets ≡ 5 };
}

/// The position of a walk in the order of repair. The walk still has the stripes of this rank from a number on, and all
/// stripes of higher ranks.
#[derive(Clone, Copy)]
pub struct Position {
    pub rank: usize,
    pub from: usize,
}

impl ByRank {
    /// Returns the empty sets: no stripe is at any rank.
    pub fn new() -> ByRank
        ensures { at_rank result ≡ λ k s. false }
    {
        ByRank {
            sets: [
                MarkedSet::new(),
                MarkedSet::new(),
                MarkedSet::new(),
                MarkedSet::new(),
                MarkedSet::new(),
            ],
        }
    }

    /// Returns the stripes that have work, at their ranks.
    pub(crate) fn ranked(planes: &Planes, more: &FragmentSets) -> ByRank
        ensures { at_rank result ≡ λ k s. has planes.now.work s && nat_eq (rank_with planes.now.narrow planes.now.missing more.now s) k }
    {
        // Five sets and no array, and no test in the loop, so that the compiler takes several blocks at once.
        let mut zero = StripeSet::new();
        let mut one = StripeSet::new();
        let mut two = StripeSet::new();
        let mut three = StripeSet::new();
        let mut four = StripeSet::new();
        let blocks = planes.work.blocks();
        for index in 0..blocks {
            let block = Block {
                planes,
                more,
                index,
            };
            let words = block.ranks();
            zero.put_word(index, words[0]);
            one.put_word(index, words[1]);
            two.put_word(index, words[2]);
            three.put_word(index, words[3]);
            four.put_word(index, words[4]);
        }
        ByRank {
            sets: [
                MarkedSet::of(zero, blocks),
                MarkedSet::of(one, blocks),
                MarkedSet::of(two, blocks),
                MarkedSet::of(three, blocks),
                MarkedSet::of(four, blocks),
            ],
        }
    }

    /// Returns a copy of the sets.
    pub(crate) fn again(&self) -> ByRank
        ensures { at_rank result ≡ at_rank self.now }
    {
        ByRank {
            sets: [
                self.sets[0].again(),
                self.sets[1].again(),
                self.sets[2].again(),
                self.sets[3].again(),
                self.sets[4].again(),
            ],
        }
    }

    /// Adds a stripe that is at no rank to this rank, if there is one.
    pub fn add(&mut self, stripe: StripeNo, rank: Option<u8>)
        requires none { (k : ℕ) → at_rank self.old k stripe ≡ false }
        requires few { IfSome rank (λ k. k ≤ 4) }
        ensures { (k : ℕ) (s : AnyStripe) → at_rank self.new k s ≡ (if same_stripe stripe s then is_at k rank else at_rank self.old k s) }
    {
        if let Some(rank) = rank {
            let set = &mut self.sets[rank as usize];
            set.insert(stripe);
        }
    }

    /// Reports whether there is a rank and the stripe is at it.
    #[inline(always)]
    pub(crate) fn is_at(&self, stripe: StripeNo, rank: Option<u8>) -> bool
        requires { IfSome rank (λ k. k ≤ 4) }
        ensures { result ≡ option_map_or (λ k. at_rank self.now k stripe) rank false }
    {
        match rank {
            Some(rank) => self.sets[rank as usize].contains(stripe),
            None => false,
        }
    }

    /// Returns the lowest rank of a stripe, if it has one.
    #[inline(always)]
    pub(crate) fn rank(&self, stripe: StripeNo) -> Option<u8>
        ensures some { IfSome result (λ k. (k ≤ 4) × (at_rank self.now k stripe ≡ true)) }
        ensures none { IfNone result ((k : ℕ) → at_rank self.now k stripe ≡ false) }
    {
        for rank in 0..RANKS {
            if self.sets[rank].contains(stripe) {
                return Some(rank as u8);
            }
        }
        None
    }

    /// Reports whether no stripe has a rank.
    pub(crate) fn is_empty(&self) -> bool
        ensures none { result ≡ true → (k : ℕ) (s : AnyStripe) → at_rank self.now k s ≡ false }
        ensures some { result ≡ false → (k : ℕ) × (s : AnyStripe) × (at_rank self.now k s ≡ true) }
    {
        for rank in 0..RANKS {
            if !self.sets[rank].is_empty() {
                return false;
            }
        }
        true
    }

    /// Removes a stripe from its rank, if it has one.
    pub fn remove(&mut self, stripe: StripeNo, rank: Option<u8>)
        requires shown { (k : ℕ) → at_rank self.old k stripe ≡ is_at k rank }
        requires few { IfSome rank (λ k. k ≤ 4) }
        ensures { (k : ℕ) (s : AnyStripe) → at_rank self.new k s ≡ (if same_stripe stripe s then false else at_rank self.old k s) }
    {
        if let Some(rank) = rank {
            let set = &mut self.sets[rank as usize];
            set.remove(stripe);
        }
    }

    /// Returns the first stripe of a rank from this number on.
    pub fn first_from(&self, rank: usize, from: usize) -> Option<StripeNo>
        requires { rank ≤ 4 }
        ensures { FindsNext (at_rank self.now rank) from result }
    {
        self.sets[rank].first_from(from)
    }

    /// Returns the next stripe of a walk, if there is one, and moves the position past it.
    pub fn next_stripe(&self, position: &mut Position) -> Option<StripeNo>
        requires { position.old.rank ≤ 4 }
        ensures low { position.new.rank ≤ 4 }
        ensures next { YieldsFirst (λ (left : List AnyStripe). left) (queue_from (at_rank self.now) position.old.rank position.old.from) result (queue_from (at_rank self.now) position.new.rank position.new.from) }
    {
        loop {
            if let Some(stripe) = self.first_from(position.rank, position.from) {
                position.from = stripe.value as usize + 1;
                return Some(stripe);
            }
            if position.rank + 1 == RANKS {
                return None;
            }
            position.rank += 1;
            position.from = 0;
        }
    }
}
