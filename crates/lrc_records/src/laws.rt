//! Laws of the definitions in `specs/`. Each law is the contract of a function that does nothing.

ghost use Rattle.std.specs.Prelude.{◌≡◌};
ghost use Rattle.lrc_code.specs.declared.codes.Code.{Code};
ghost use Rattle.lrc_code.specs.declared.numbers.Fragment.{Fragment};
ghost use Rattle.lrc_code.specs.Losses.{FragmentSet};
ghost use Rattle.lrc_records.specs.Recipes.{IsRecipeOf};
ghost use Rattle.lrc_records.specs.declared.recipe.LrcRecipe.{LrcRecipe as AnyRecipe};

/// A fragment has one recipe where the same fragments are missing: whoever asks gets the same record.
pub fn one_recipe_of_a_fragment()
    ensures { (code : Code) (missing : FragmentSet) (f : Fragment) (r s : AnyRecipe) →
        IsRecipeOf code missing f r → IsRecipeOf code missing f s → r ≡ s }
{}
