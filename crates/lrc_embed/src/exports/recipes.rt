//! Recipes and the generator matrices, without a book.

ghost use Rattle.std.specs.Prelude.{◌≡◌, ◌≢◌, ◌<◌, ◌↔◌, ◌∷◌, [], length};
ghost use Rattle.lrc_code.specs.declared.numbers.Fragment.{Fragment as AnyFragment};
ghost use Rattle.lrc_code.specs.Codes.{fragment_count};
ghost use Rattle.lrc_code.specs.Losses.{bits_set};
ghost use Rattle.lrc_coder.specs.Matrices.{matrix_count as matrix_count_of};
ghost use Rattle.lrc_records.specs.Recipes.{IsRecipeOf};
ghost use Rattle.lrc_embed.specs.Recipes.{AtCode, IsNoCode, IsNoFragment, IsDetermined, HasMatrix};
ghost use Rattle.lrc_embed.specs.Statuses.{IsOneOf};

use crate::exports::image::put_text;
use crate::status::{DONE, OUT_OF_RANGE, SHORT, UNDETERMINED};
use lrc_code::{Code, Fragment, LossMask};
use lrc_coder::{matrix, matrix_count};
use lrc_records::{LrcRecipe, code_of};

/// How a fragment is rebuilt where some are missing; fragment f is bit f of `missing`. One that is not missing is
/// copied.
#[unsafe(no_mangle)]
pub extern "C" fn lrc_embed_recipe_of(
    code: u8,
    missing: u16,
    fragment: u8,
    recipe: &mut LrcRecipe,
) -> u32
    ensures range { (result ≡ OUT_OF_RANGE) ↔ IsNoFragment code fragment }
    ensures done { (result ≡ DONE)
        → AtCode code (λ c. (f : AnyFragment) × (f.value ≡ fragment) × IsRecipeOf c (bits_set missing) f recipe.new) }
    ensures undetermined { (result ≡ UNDETERMINED) → AtCode code (λ c. ¬ IsDetermined c missing fragment) }
    ensures statuses { IsOneOf result (DONE ∷ OUT_OF_RANGE ∷ UNDETERMINED ∷ []) }
    ensures unwritten { (result ≢ DONE) → recipe.new ≡ recipe.old }
{
    let Some(code) = code_of(code) else {
        return OUT_OF_RANGE;
    };
    let Some(fragment) = Fragment::new(fragment) else {
        return OUT_OF_RANGE;
    };
    if fragment.value >= code.fragments() {
        return OUT_OF_RANGE;
    }
    put_recipe(code, LossMask { bits: missing }, fragment, recipe)
}

/// Writes the recipe of a fragment that the code has, if what is not missing determines it.
pub(super) fn put_recipe(
    code: Code,
    missing: LossMask,
    fragment: Fragment,
    recipe: &mut LrcRecipe,
) -> u32
    ensures done { (result ≡ DONE) → IsRecipeOf code (bits_set missing.bits) fragment recipe.new }
    ensures undetermined { (result ≡ UNDETERMINED)
        → ¬ ((fragment.value < fragment_count code) × IsDetermined code missing.bits fragment.value) }
    ensures statuses { IsOneOf result (DONE ∷ UNDETERMINED ∷ []) }
    ensures unwritten { (result ≢ DONE) → recipe.new ≡ recipe.old }
{
    match LrcRecipe::of(code, missing, fragment) {
        Some(found) => {
            *recipe = found;
            DONE
        }
        None => UNDETERMINED,
    }
}

/// The generator matrix of a code, row by row: a row for each fragment, with a column for each data fragment. It fills
/// the first `length` bytes. If there is less room, nothing is written but the `length` that it needs.
#[unsafe(no_mangle)]
pub extern "C" fn lrc_embed_matrix(code: u8, rows: &mut [u8], needed: &mut usize) -> u32
    ensures range { (result ≡ OUT_OF_RANGE) ↔ IsNoCode code }
    ensures done { (result ≡ DONE)
        → AtCode code (λ c. (needed.new ≡ matrix_count_of c) × HasMatrix c rows.old rows.new) }
    ensures short { (result ≡ SHORT)
        → AtCode code (λ c. (needed.new ≡ matrix_count_of c) × (length rows.old < matrix_count_of c)) }
    ensures statuses { IsOneOf result (DONE ∷ OUT_OF_RANGE ∷ SHORT ∷ []) }
    ensures unwritten { (result ≢ DONE) → rows.new ≡ rows.old }
    ensures unneeded { (result ≡ OUT_OF_RANGE) → needed.new ≡ needed.old }
{
    let Some(code) = code_of(code) else {
        return OUT_OF_RANGE;
    };
    put_matrix(code, rows, needed)
}

/// Writes the generator matrix into the first bytes of a buffer, if it has room for it, and the number of coefficients.
fn put_matrix(code: Code, rows: &mut [u8], needed: &mut usize) -> u32
    ensures needed { needed.new ≡ matrix_count_of code }
    ensures done { (result ≡ DONE) → HasMatrix code rows.old rows.new }
    ensures short { (result ≡ SHORT) → (rows.new ≡ rows.old) × (length rows.old < matrix_count_of code) }
    ensures statuses { IsOneOf result (DONE ∷ SHORT ∷ []) }
{
    let matrix = matrix(code);
    put_text(&matrix[..matrix_count(code)], rows, needed)
}
