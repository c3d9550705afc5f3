ghost use Rattle.std.specs.Prelude.{◌≡◌, ℕ, false};
ghost use Rattle.lrc_ranks.specs.Sets.{at_fragment, has};

use crate::fragment_sets::FragmentSets;
use crate::stripe_set::StripeSet;

/// What the ranks of stripes follow from, as sets of stripes.
#[derive(Drop)]
pub struct Planes {
    /// The stripes that miss a fragment, by fragment number.
    pub missing: FragmentSets,
    /// The stripes that have work.
    pub work: StripeSet,
    /// The stripes of the code `Narrow`.
    pub narrow: StripeSet,
}

impl Planes {
    /// Returns the planes without a stripe.
    pub fn new() -> Planes
        ensures missing { at_fragment result.missing ≡ λ f s. false }
        ensures work { has result.work ≡ λ s. false }
        ensures narrow { has result.narrow ≡ λ s. false }
    {
        Planes {
            missing: FragmentSets::new(),
            work: StripeSet::new(),
            narrow: StripeSet::new(),
        }
    }
}
