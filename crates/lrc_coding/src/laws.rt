//! Laws of the definitions in `specs/`. Each law is the contract of a function that does nothing.

ghost use Rattle.std.specs.Prelude.{◌≡◌, ◌≢◌, ℕ, ◌<◌, IsFalse, List, All, map, Option, Ok, Err};
ghost use Rattle.lrc_code.specs.declared.codes.Code.{Code};
ghost use Rattle.lrc_code.specs.declared.numbers.Fragment.{Fragment};
ghost use Rattle.lrc_code.specs.Codes.{fragment_count};
ghost use Rattle.lrc_code.specs.Losses.{FragmentSet};
ghost use Rattle.lrc_field.specs.declared.recipes.Recipe.{Recipe as AnyRecipe};
ghost use Rattle.lrc_field.specs.Recipes.{IsRecipe};
ghost use Rattle.lrc_field.specs.Stripes.{Bytes, IsStripe, sum_of};
ghost use Rattle.lrc_coding.specs.declared.refusal.RecipeRefusal.{RecipeRefusal as AnyRefusal};
ghost use Rattle.lrc_coding.specs.Answers.{IsAnswer};
ghost use Rattle.lrc_coding.specs.Told.{fragments_read};

/// The rows of a recipe are of fragments of the code, none of them missing, and none the fragment itself. They suffice: byte by byte, the fragment is their sum, each times its coefficient.
pub fn rows_rebuild_the_fragment()
    ensures standing { (code : Code) (m : FragmentSet) (f : ℕ) (c : ℕ → ℕ) → IsRecipe code m f c →
        All (λ (g : Fragment). (g.value < fragment_count code) × (IsFalse (m g.value) × (g.value ≢ f))) (fragments_read c) }
    ensures enough { (code : Code) (m : FragmentSet) (f : ℕ) (c : ℕ → ℕ) (v : Bytes) → IsRecipe code m f c → IsStripe code v →
        v f ≡ sum_of c v (map (λ g. g.value) (fragments_read c)) }
{}

/// A question that is answered by a recipe is answered by no refusal and no other recipe, and another one by one refusal only.
pub fn answers_are_of_one_kind()
    ensures either { (code : Code) (mask : Option ℕ) (word : List ℕ) (r : AnyRecipe) (e : AnyRefusal) →
        IsAnswer code mask word (Ok r) → ¬ IsAnswer code mask word (Err e) }
    ensures recipe { (code : Code) (mask : Option ℕ) (word : List ℕ) (r s : AnyRecipe) →
        IsAnswer code mask word (Ok r) → IsAnswer code mask word (Ok s) → r ≡ s }
    ensures one { (code : Code) (mask : Option ℕ) (word : List ℕ) (d e : AnyRefusal) →
        IsAnswer code mask word (Err d) → IsAnswer code mask word (Err e) → d ≡ e }
{}
