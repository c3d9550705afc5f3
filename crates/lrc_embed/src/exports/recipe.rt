ghost use Rattle.std.specs.Prelude.{◌≡◌, ◌≢◌, ◌≤◌, ◌↔◌, ◌⊎◌, ◌∷◌, [], None};
ghost use Rattle.lrc_embed.specs.Calls.{Of, AtFragment};
ghost use Rattle.lrc_embed.specs.Leased.{HasRecipe, HasNone, HasNoLease};
ghost use Rattle.lrc_embed.specs.Statuses.{IsOneOf};

use crate::LrcHandle;
use crate::exports::recipes::put_recipe;
use crate::status::{DONE, IS_CLOSED, OUT_OF_RANGE, UNDETERMINED, UNKNOWN};
use lrc_book::Book;
use lrc_code::{Fragment, StripeNo};
use lrc_records::LrcRecipe;
use std::alloc::Global;

/// How the fragment of a live lease is rebuilt from what is not missing now.
#[unsafe(no_mangle)]
pub extern "C" fn lrc_embed_recipe(
    alloc: Global,
    handle: &mut LrcHandle,
    stripe: u16,
    fragment: u8,
    recipe: &mut LrcRecipe,
) -> u32
    ensures same { handle.new.owned.book ≡ handle.old.owned.book }
    ensures range { (result ≡ OUT_OF_RANGE) ↔ ((4096 ≤ stripe) ⊎ (16 ≤ fragment)) }
    ensures done { (result ≡ DONE)
        → Of handle.old.owned.book (λ b. AtFragment stripe fragment (HasRecipe b recipe.new)) }
    ensures undetermined { (result ≡ UNDETERMINED)
        → Of handle.old.owned.book (λ b. AtFragment stripe fragment (HasNone b)) }
    ensures unknown { (result ≡ UNKNOWN) → Of handle.old.owned.book (λ b. AtFragment stripe fragment (HasNoLease b)) }
    ensures closed { (result ≡ IS_CLOSED) → handle.old.owned.book ≡ None }
    ensures statuses { IsOneOf result (DONE ∷ IS_CLOSED ∷ OUT_OF_RANGE ∷ UNKNOWN ∷ UNDETERMINED ∷ []) }
    ensures unwritten { (result ≢ DONE) → recipe.new ≡ recipe.old }
{
    let Some(stripe) = StripeNo::new(stripe) else {
        return OUT_OF_RANGE;
    };
    let Some(fragment) = Fragment::new(fragment) else {
        return OUT_OF_RANGE;
    };
    let Some(book) = handle.take(alloc) else {
        return IS_CLOSED;
    };
    let status = put_recipe_now(&book, stripe, fragment, recipe);
    handle.put(book);
    status
}

/// Writes the recipe of a fragment that has a live lease, if what is not missing now determines it.
fn put_recipe_now(book: &Book, stripe: StripeNo, fragment: Fragment, recipe: &mut LrcRecipe) -> u32
    ensures done { (result ≡ DONE) → HasRecipe book.now recipe.new stripe fragment }
    ensures undetermined { (result ≡ UNDETERMINED) → HasNone book.now stripe fragment }
    ensures unknown { (result ≡ UNKNOWN) → HasNoLease book.now stripe fragment }
    ensures statuses { IsOneOf result (DONE ∷ UNKNOWN ∷ UNDETERMINED ∷ []) }
    ensures unwritten { (result ≢ DONE) → recipe.new ≡ recipe.old }
{
    let Some(_lease) = book.lease(stripe, fragment) else {
        return UNKNOWN;
    };
    let Some(code) = book.code(stripe) else {
        return UNKNOWN;
    };
    let Some(missing) = book.missing(stripe) else {
        return UNKNOWN;
    };
    put_recipe(code, missing, fragment, recipe)
}
