ghost use Rattle.std.specs.Prelude.{◌≡◌, ◌&&◌, ℕ, false, if◌then◌else◌};
ghost use Rattle.lrc_code.specs.Numbers.{same_stripe};
ghost use Rattle.lrc_code.specs.Losses.{bits_set};
ghost use Rattle.lrc_code.specs.declared.numbers.StripeNo.{StripeNo as AnyStripe};
ghost use Rattle.lrc_ranks.specs.Missing.{ranks_in};
ghost use Rattle.lrc_ranks.specs.Sets.{at_fragment, at_rank, has};

use crate::by_rank::ByRank;
use crate::fragment_sets::FragmentSets;
use crate::planes::Planes;
use lrc_code::{LossMask, StripeNo};
use std::marker::Model;

/// Planes, and the ranks that follow from them alone, once these were asked for and until the planes change.
#[derive(Drop)]
pub struct KeptPlanes {
    planes: Planes,
    ranks: ByRank,
    are_known: bool,
}

impl Model for KeptPlanes {
    ghost use Rattle.std.specs.Prelude.{◌≡◌, true};
    ghost use Rattle.lrc_ranks.specs.declared.planes.Planes.{Planes as AnyPlanes};
    ghost use Rattle.lrc_ranks.specs.Missing.{ranks_in};
    ghost use Rattle.lrc_ranks.specs.Sets.{at_rank};

    ghost Value = { AnyPlanes };

    ghost view = { λ k. k.planes };

    ghost invariant = { λ k. k.are_known ≡ true → at_rank k.ranks ≡ ranks_in k.planes };
}

impl KeptPlanes {
    /// Returns the planes without a stripe.
    pub fn new() -> KeptPlanes
        ensures missing { at_fragment result.missing ≡ λ f s. false }
        ensures work { has result.work ≡ λ s. false }
        ensures narrow { has result.narrow ≡ λ s. false }
    {
        KeptPlanes {
            planes: Planes::new(),
            ranks: ByRank::new(),
            are_known: false,
        }
    }

    /// Returns the planes.
    pub fn planes(&self) -> &Planes
        ensures { result.now ≡ self.now }
    {
        &self.planes
    }

    /// Adds a stripe to those that miss these fragments, or removes it from them.
    pub fn put_missing(&mut self, stripe: StripeNo, fragments: LossMask, is_in: bool)
        ensures missing { (f : ℕ) (s : AnyStripe) → at_fragment self.new.missing f s
            ≡ (if same_stripe stripe s && bits_set fragments.bits f then is_in else at_fragment self.old.missing f s) }
        ensures work { self.new.work ≡ self.old.work }
        ensures narrow { self.new.narrow ≡ self.old.narrow }
    {
        self.are_known = false;
        self.planes.missing.put(stripe, fragments, is_in);
    }

    /// Adds a stripe to those that have work, or removes it from them.
    pub fn set_work(&mut self, stripe: StripeNo, has_work: bool)
        ensures missing { self.new.missing ≡ self.old.missing }
        ensures work { has self.new.work ≡ λ s. if same_stripe stripe s then has_work else has self.old.work s }
        ensures narrow { self.new.narrow ≡ self.old.narrow }
    {
        self.are_known = false;
        self.planes.work.set(stripe, has_work);
    }

    /// Adds a stripe to those of the code `Narrow`, or removes it from them.
    pub fn set_narrow(&mut self, stripe: StripeNo, is_narrow: bool)
        ensures missing { self.new.missing ≡ self.old.missing }
        ensures work { self.new.work ≡ self.old.work }
        ensures narrow { has self.new.narrow ≡ λ s. if same_stripe stripe s then is_narrow else has self.old.narrow s }
    {
        self.are_known = false;
        self.planes.narrow.set(stripe, is_narrow);
    }

    /// Returns the stripes that have work, at their ranks by the fragments that they miss in the planes.
    pub(crate) fn ranks(&mut self) -> ByRank
        ensures same { self.new ≡ self.old }
        ensures ranks { at_rank result ≡ ranks_in self.old }
    {
        if !self.are_known {
            self.ranks = ranks_of(&self.planes);
            self.are_known = true;
        }
        self.ranks.again()
    }
}

/// The same for planes alone.
#[inline(never)] // so that nothing clears the room for its sets where the ranks are known
fn ranks_of(planes: &Planes) -> ByRank
    ensures { at_rank result ≡ ranks_in planes.now }
{
    let none = FragmentSets::new();
    ByRank::ranked(planes, &none)
}
