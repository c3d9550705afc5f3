ghost use Rattle.std.specs.Prelude.{◌≡◌, ◌<◌, ◌↔◌, IsSome, IfSome};
ghost use Rattle.lrc_code.specs.Codes.{fragment_count};
ghost use Rattle.lrc_code.specs.Losses.{bits_set};
ghost use Rattle.lrc_field.specs.Recipes.{only_itself};
ghost use Rattle.lrc_field.specs.Stripes.{Determines, outside};
ghost use Rattle.lrc_records.specs.Recipes.{IsRecipeOf, encoded_recipe};

use crate::code_number;
use lrc_code::{Code, FRAGMENTS, Fragment, LossMask};
use lrc_field::Recipe;

/// How a fragment of a stripe is rebuilt: byte by byte it is the sum of the stripe's fragments, each times its coefficient,
/// which is 0 for one that is not read. `code` is the number of the stripe's code.
#[repr(C)]
#[derive(Clone, Copy)]
pub struct LrcRecipe {
    pub code: u8,
    pub fragment: u8,
    pub reserved: [u8; 6],
    pub coefficients: [u8; 16],
}

impl LrcRecipe {
    /// The recipe of a fragment where some are missing: of those that read fewest the one whose fragments come first, in
    /// rising order. A fragment that is not missing is copied: its own coefficient is 1.
    /// `None` exactly if what is not missing does not determine the fragment, or the code has no such fragment.
    pub fn of(code: Code, missing: LossMask, fragment: Fragment) -> Option<LrcRecipe>
        ensures some { IsSome result ↔ ((fragment.value < fragment_count code) × Determines code (outside (bits_set missing.bits)) fragment.value) }
        ensures recipe { IfSome result (IsRecipeOf code (bits_set missing.bits) fragment) }
    {
        if fragment.value >= code.fragments() {
            return None;
        }
        if !missing.contains(fragment) {
            return Some(LrcRecipe::with(code, fragment, itself(fragment)));
        }
        let recipe = Recipe::of(code, missing, fragment)?;
        Some(LrcRecipe::with(code, fragment, recipe.coefficients))
    }

    // The record of a recipe with these coefficients.
    fn with(code: Code, fragment: Fragment, coefficients: [u8; FRAGMENTS]) -> LrcRecipe
        ensures { result ≡ encoded_recipe code fragment coefficients }
    {
        LrcRecipe {
            code: code_number(code),
            fragment: fragment.value,
            reserved: [0; 6],
            coefficients,
        }
    }
}

// The coefficient 1 at the fragment, and 0 elsewhere.
fn itself(fragment: Fragment) -> [u8; FRAGMENTS]
    ensures { result ≡ only_itself fragment.value }
{
    let mut coefficients = [0; FRAGMENTS];
    coefficients[fragment.value as usize] = 1;
    coefficients
}
