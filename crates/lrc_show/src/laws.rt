//! Laws of what the tables show. Each law is the contract of a function that does nothing.

ghost use Rattle.std.specs.Prelude.{◌≡◌, ◌↔◌, ℕ, IsTrue, IsFalse, List, Some, None};
ghost use Rattle.lrc_code.specs.declared.numbers.StripeNo.{StripeNo};
ghost use Rattle.lrc_code.specs.declared.numbers.Fragment.{Fragment};
ghost use Rattle.lrc_code.specs.Losses.{size_of};
ghost use Rattle.lrc_field.specs.Stripes.{Determines, outside};
ghost use Rattle.lrc_field.specs.Recipes.{IsRecipe, read_by};
ghost use Rattle.lrc_topology.specs.declared.NodeInfo.{NodeInfo};
ghost use Rattle.lrc_rules.specs.States.{State, code_of, missing};
ghost use Rattle.lrc_rules.specs.Repairs.{needs, kind, is_safe};
ghost use Rattle.lrc_show.specs.Listed.{reads};

/// The number that the table of work shows under `reads` is, for a missing fragment, the number of fragments that each
/// recipe of it reads where the stripe's missing fragments are missing. It is left out exactly if what is not missing does
/// not determine the fragment. For a fragment that is not missing, which is moved, it is 1: the fragment itself.
pub fn reads_are_those_of_recipes()
    ensures rebuilt { (nodes : List NodeInfo) (st : State) (s : StripeNo) (f : Fragment) (c : ℕ → ℕ)
        → IsTrue (missing nodes st s f.value) → IsRecipe (code_of st s) (missing nodes st s) f.value c
        → reads (code_of st s) (is_safe nodes st s) (kind nodes st s f) ≡ Some (size_of (code_of st s) (read_by c)) }
    ensures none { (nodes : List NodeInfo) (st : State) (s : StripeNo) (f : Fragment)
        → IsTrue (missing nodes st s f.value)
        → (reads (code_of st s) (is_safe nodes st s) (kind nodes st s f) ≡ None)
        ↔ (¬ Determines (code_of st s) (outside (missing nodes st s)) f.value) }
    ensures moved { (nodes : List NodeInfo) (st : State) (s : StripeNo) (f : Fragment)
        → IsTrue (needs nodes st s f) → IsFalse (missing nodes st s f.value)
        → reads (code_of st s) (is_safe nodes st s) (kind nodes st s f) ≡ Some 1 }
{}
