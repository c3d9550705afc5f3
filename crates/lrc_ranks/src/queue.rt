ghost use Rattle.std.specs.Prelude.{◌≡◌, ◌||◌, ◌&&◌, ℕ, ◌≤◌, false, true, nat_eq, if◌then◌else◌, IfSome};
ghost use Rattle.std.specs.List.{list_any};
ghost use Rattle.lrc_code.specs.Numbers.{same_stripe};
ghost use Rattle.lrc_code.specs.declared.numbers.StripeNo.{StripeNo as AnyStripe};
ghost use Rattle.lrc_ranks.specs.Missing.{rank_with, ranks_in};
ghost use Rattle.lrc_ranks.specs.Ranks.{is_at, queue_from};
ghost use Rattle.lrc_ranks.specs.Sets.{at_rank, has};

use crate::by_rank::{ByRank, Position};
use crate::fragment_sets::FragmentSets;
use crate::kept_planes::KeptPlanes;
use crate::planes::Planes;
use crate::stripe_set::StripeSet;
use crate::work::Work;
use lrc_code::StripeNo;
use std::marker::Model;

/// The stripes that have a rank, by rank.
#[derive(Drop)]
pub struct Queue {
    ranks: ByRank,
}

impl Model for Queue {
    ghost use Rattle.std.specs.Prelude.{Bool, List};
    ghost use Rattle.lrc_ranks.specs.Kept.{AreAtOneRank};

    ghost Value = { List (List Bool) };

    ghost view = { λ q. q.ranks };

    ghost invariant = { λ q. AreAtOneRank q.ranks };
}

impl Queue {
    /// Returns a queue in which no stripe has a rank.
    pub fn new() -> Queue
        ensures { at_rank result ≡ λ k s. false }
    {
        Queue {
            ranks: ByRank::new(),
        }
    }

    /// Returns the rank of a stripe, if it has one.
    #[inline(always)]
    pub fn rank(&self, stripe: StripeNo) -> Option<u8>
        ensures shown { (k : ℕ) → at_rank self.now k stripe ≡ is_at k result }
        ensures few { IfSome result (λ k. k ≤ 4) }
    {
        self.ranks.rank(stripe)
    }

    /// Sets the rank of a stripe, or clears it.
    #[inline(always)] // each change of a row calls it, and most of it is skipped where the rank stays
    pub fn relist(&mut self, stripe: StripeNo, rank: Option<u8>)
        requires { IfSome rank (λ k. k ≤ 4) }
        ensures { at_rank self.new ≡ λ k s. if same_stripe stripe s then is_at k rank else at_rank self.old k s }
    {
        if self.ranks.is_at(stripe, rank) {
            return;
        }
        let before = self.rank(stripe);
        self.ranks.remove(stripe, before);
        self.ranks.add(stripe, rank);
    }

    /// Sets the ranks of all stripes. Those with work get one, by the fragments that they miss in the planes or in the
    /// other sets.
    pub fn renew(&mut self, planes: &Planes, more: &FragmentSets)
        ensures { at_rank self.new ≡ λ k s. has planes.now.work s && nat_eq (rank_with planes.now.narrow planes.now.missing more.now s) k }
    {
        self.ranks = ByRank::ranked(planes, more);
    }

    /// Sets the ranks of all stripes by the planes alone.
    pub fn renew_by(&mut self, planes: &mut KeptPlanes)
        ensures planes { planes.new ≡ planes.old }
        ensures ranks { at_rank self.new ≡ ranks_in planes.old }
    {
        self.ranks = planes.ranks();
    }

    /// Reports whether no stripe has a rank.
    pub fn is_empty(&self) -> bool
        ensures none { result ≡ true → (k : ℕ) (s : AnyStripe) → at_rank self.now k s ≡ false }
        ensures some { result ≡ false → (k : ℕ) × (s : AnyStripe) × (at_rank self.now k s ≡ true) }
    {
        self.ranks.is_empty()
    }

    /// Returns the stripes from a position on, in the order of repair.
    pub fn walk(&self, position: Position) -> Work<'_>
        requires { position.rank ≤ 4 }
        ensures { result ≡ queue_from (at_rank self.now) position.rank position.from }
    {
        Work::new(&self.ranks, position)
    }
}
