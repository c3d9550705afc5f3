//! The codes over buffers: parities are made, and fragments rebuilt.

ghost use Rattle.std.specs.Prelude.{◌≡◌, ◌≢◌, ◌↔◌, ◌∷◌, [], length, map};
ghost use Rattle.lrc_coder.specs.Buffers.{read, written_buffers, buffer_addresses};
ghost use Rattle.lrc_coder.specs.Coding.{AreCounted, IsEncoded, IsRebuilt};
ghost use Rattle.lrc_code.specs.Codes.{fragment_count};
ghost use Rattle.lrc_embed.specs.Recipes.{AtCode, IsNoCode};
ghost use Rattle.lrc_embed.specs.Coded.{IsUneven, IsReadUneven, IsOfNoCode};
ghost use Rattle.lrc_embed.specs.Statuses.{IsOneOf};

use crate::status::{DONE, MISCOUNTED, OUT_OF_RANGE, UNEVEN};
use lrc_coder::{CodingError, encode, rebuild};
use lrc_field::Recipe;
use lrc_records::{LrcRecipe, code_of};

/// Writes the four parities of a stripe, of its data fragments in order. All buffers have one length.
#[unsafe(no_mangle)]
pub extern "C" fn lrc_embed_encode(
    code: u8,
    data_fragments: &[&[u8]],
    parities: &mut [&mut [u8]],
) -> u32
    ensures range { (result ≡ OUT_OF_RANGE) ↔ IsNoCode code }
    ensures done { (result ≡ DONE) → AtCode code (λ c.
        IsEncoded c (read data_fragments.now) (written_buffers parities.old) (written_buffers parities.new)) }
    ensures miscounted { (result ≡ MISCOUNTED) → AtCode code (λ c.
        ¬ AreCounted c (read data_fragments.now) (written_buffers parities.old)) }
    ensures uneven { (result ≡ UNEVEN) → AtCode code (λ c.
        IsUneven c (read data_fragments.now) (written_buffers parities.old)) }
    ensures statuses { IsOneOf result (DONE ∷ OUT_OF_RANGE ∷ MISCOUNTED ∷ UNEVEN ∷ []) }
    ensures places { buffer_addresses parities.new ≡ buffer_addresses parities.old }
    ensures lengths { map length (written_buffers parities.new) ≡ map length (written_buffers parities.old) }
    ensures unwritten { (result ≢ DONE) → written_buffers parities.new ≡ written_buffers parities.old }
{
    let Some(code) = code_of(code) else {
        return OUT_OF_RANGE;
    };
    match encode(code, data_fragments, parities) {
        Ok(()) => DONE,
        Err(CodingError::Count | CodingError::NoFragment(_)) => MISCOUNTED,
        Err(CodingError::Length(_)) => UNEVEN,
    }
}

/// Writes what a recipe makes of the fragments of a stripe, which stand by number. Those that it reads are as long as
/// `rebuilt`; the others are not read, and may be empty. A recipe is out of range if its code lacks a fragment that it
/// reads.
#[unsafe(no_mangle)]
pub extern "C" fn lrc_embed_rebuild(
    recipe: &LrcRecipe,
    fragments: &[&[u8]],
    rebuilt: &mut [u8],
) -> u32
    ensures range { (result ≡ OUT_OF_RANGE) ↔ IsOfNoCode recipe.now.code recipe.now.coefficients }
    ensures done { (result ≡ DONE) → AtCode recipe.now.code (λ c.
        IsRebuilt c recipe.now.coefficients (read fragments.now) rebuilt.old rebuilt.new) }
    ensures miscounted { (result ≡ MISCOUNTED) → AtCode recipe.now.code (λ c. length fragments.now ≢ fragment_count c) }
    ensures uneven { (result ≡ UNEVEN) → AtCode recipe.now.code (λ c.
        IsReadUneven c recipe.now.coefficients (read fragments.now) (length rebuilt.old)) }
    ensures statuses { IsOneOf result (DONE ∷ OUT_OF_RANGE ∷ MISCOUNTED ∷ UNEVEN ∷ []) }
    ensures unwritten { (result ≢ DONE) → rebuilt.new ≡ rebuilt.old }
{
    let Some(code) = code_of(recipe.code) else {
        return OUT_OF_RANGE;
    };
    let recipe = Recipe {
        coefficients: recipe.coefficients,
    };
    match rebuild(code, &recipe, fragments, rebuilt) {
        Ok(()) => DONE,
        Err(CodingError::NoFragment(_)) => OUT_OF_RANGE,
        Err(CodingError::Count) => MISCOUNTED,
        Err(CodingError::Length(_)) => UNEVEN,
    }
}
