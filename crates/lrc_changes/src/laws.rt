//! Laws of rows of changes. The functions do nothing. Their contracts are theorems about what the rows say.

ghost use Rattle.std.specs.Prelude.{◌≡◌, ◌↔◌, ◌⊎◌, ◌≢◌, IsTrue, Contains, AllPairs};
ghost use Rattle.lrc_terms.specs.Stripes.{StripeFragment, comes_before};
ghost use Rattle.lrc_rules.specs.States.{State};
ghost use Rattle.lrc_changes.specs.Changes.{own_home, own_lease, changed};

/// Exactly the fragments whose home or lease is another one have a row, in rising order, and so at most one each. All
/// others have the home and the lease that they had.
pub fn rows_are_of_what_differs()
    ensures each { (was now : State) (p : StripeFragment)
        → Contains (changed was now) p ↔ ((own_home was p ≢ own_home now p) ⊎ (own_lease was p ≢ own_lease now p)) }
    ensures others { (was now : State) (p : StripeFragment)
        → ¬ Contains (changed was now) p → (own_home was p ≡ own_home now p) × (own_lease was p ≡ own_lease now p) }
    ensures rising { (was now : State) → AllPairs (λ p q. IsTrue (comes_before p q)) (changed was now) }
{}
