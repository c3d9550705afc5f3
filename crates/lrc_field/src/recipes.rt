ghost use Rattle.std.specs.Prelude.{◌≡◌, ℕ, ◌<◌, ◌↔◌, ◌&&◌, if◌then◌else◌, not, nat_eq, count_by, IsTrue, IsSome, IfSome, get_or, length};
ghost use Rattle.lrc_code.specs.declared.numbers.Fragment.{Fragment as AnyFragment};
ghost use Rattle.lrc_code.specs.Numbers.{same_fragment};
ghost use Rattle.lrc_code.specs.Codes.{fragment_count, share_class, data_count, group_size};
ghost use Rattle.lrc_code.specs.Losses.{bits_set, is_local as is_local_in};
ghost use Rattle.lrc_field.specs.Stripes.{Determines};
ghost use Rattle.lrc_field.specs.Recipes.{IsFirstRecipe, readable};
ghost use Rattle.lrc_field.specs.Weights.{coefficient_by, weights_for, local_weights as local_weights_of};

use crate::equations::Weights;
use crate::field::inverse;
use crate::left_out::{LeftOut, is_in};
use lrc_code::{Class, Code, FRAGMENTS, Fragment, LossMask};

/// How a fragment is rebuilt from others: byte by byte, it is the sum of the fragments that are read, each times its
/// coefficient.
#[derive(Clone, Copy)]
pub struct Recipe {
    /// The coefficient of each fragment, by fragment number; 0 of a fragment that is not read.
    pub coefficients: [u8; FRAGMENTS],
    pub ghost sixteen: { length coefficients ≡ 16 },
}

impl Recipe {
    /// Returns how a fragment is rebuilt where some fragments are missing, itself among them or not. It reads the six
    /// others of its local group (three with the code `Narrow`) if none of them is missing, with the coefficient 1; else
    /// twelve fragments (six), and no fewer determine it. Of the sets of that size that determine it, it reads the one that
    /// comes first by its fragments in rising order: no other recipe does. Returns `None` exactly if the fragments that are
    /// not missing, but for itself, don't determine it, or the code has no such fragment.
    pub fn of(code: Code, missing: LossMask, fragment: Fragment) -> Option<Recipe>
        ensures recipe { IfSome result (λ r. IsFirstRecipe code (bits_set missing.bits) fragment.value (λ g. get_or r.coefficients g 0)) }
        ensures some { IsSome result ↔ ((fragment.value < fragment_count code) × Determines code (readable (bits_set missing.bits) fragment.value) fragment.value) }
        ensures reads { IfSome result (λ r. count_by (λ c. not (nat_eq c 0)) r.coefficients ≡ (if is_local_in code (bits_set missing.bits) fragment then group_size code else data_count code)) }
        ensures local { IfSome result (λ r. IsTrue (is_local_in code (bits_set missing.bits) fragment) → (g : AnyFragment) →
            get_or r.coefficients g.value 0 ≡ (if share_class code fragment g && not (same_fragment fragment g) then 1 else 0)) }
    {
        if fragment.value >= code.fragments() {
            return None;
        }
        if is_local(code, missing, fragment) {
            return Some(by_weights(code, local_weights(code, fragment), fragment));
        }
        if !missing.with(fragment).recoverable_in(code) {
            return None;
        }
        let weights = global_weights(code, missing.without(fragment), fragment);
        Some(by_weights(code, weights, fragment))
    }

    /// Returns the coefficient of a fragment, 0 if it is not read.
    pub fn coefficient(&self, fragment: Fragment) -> u8
        ensures { result ≡ get_or self.now.coefficients fragment.value 0 }
    {
        self.coefficients[fragment.value as usize]
    }

    /// Returns the number of fragments that are read: 3, 6 or 12 in a recipe that was found.
    pub fn count(&self) -> usize
        ensures { result ≡ count_by (λ c. not (nat_eq c 0)) self.now.coefficients }
    {
        self.coefficients
            .iter()
            .filter(|coefficient| **coefficient != 0)
            .count()
    }
}

/// Reports whether the fragment is in a local group of which no other member is missing.
fn is_local(code: Code, missing: LossMask, fragment: Fragment) -> bool
    ensures { result ≡ is_local_in code (bits_set missing.bits) fragment }
{
    match code {
        Code::Wide => missing.local_sources(fragment).is_some(),
        Code::Narrow => missing.narrow_sources(fragment).is_some(),
    }
}

/// Returns the weights that rebuild a member of a local group by the others.
fn local_weights(code: Code, fragment: Fragment) -> Weights
    ensures { result ≡ local_weights_of code fragment.value }
{
    if is_in(code, Class::B, fragment) {
        Weights {
            local_a: 0,
            local_b: 1,
            global: 0,
            square: 0,
        }
    } else {
        Weights {
            local_a: 1,
            local_b: 0,
            global: 0,
            square: 0,
        }
    }
}

/// Returns the weights that rebuild a fragment without reading any of these others.
fn global_weights(code: Code, others: LossMask, fragment: Fragment) -> Weights
    ensures { result ≡ weights_for code (bits_set others.bits) fragment.value }
{
    let weights = LeftOut::of(code, others, fragment).weights(code);
    weights.times(inverse(weights.at(code, fragment)))
}

/// Returns the recipe in which each other fragment has what the weights give it.
fn by_weights(code: Code, weights: Weights, fragment: Fragment) -> Recipe
    ensures { (g : ℕ) → g < 16 → get_or result.coefficients g 0 ≡ coefficient_by code fragment.value weights g }
{
    let mut coefficients = [0; FRAGMENTS];
    for source in Fragment::all() {
        coefficients[source.value as usize] = coefficient(code, weights, fragment, source);
    }
    Recipe { coefficients }
}

/// Returns what the weights give a fragment, or 0 for the one that is rebuilt.
fn coefficient(code: Code, weights: Weights, fragment: Fragment, source: Fragment) -> u8
    ensures { result ≡ coefficient_by code fragment.value weights source.value }
{
    if source.value == fragment.value {
        0
    } else {
        weights.at(code, source)
    }
}
