//! Laws of the definitions in `specs/`. Each law is the contract of a function that does nothing.

ghost use Rattle.std.specs.Prelude.{◌≡◌, ◌≢◌, ◌↔◌, ◌⊎◌, ◌<◌, ◌≤◌, ◌+◌, if◌then◌else◌, ℕ, IsTrue, IsFalse};
ghost use Rattle.lrc_code.specs.declared.codes.Code.{Code};
ghost use Rattle.lrc_code.specs.declared.numbers.Fragment.{Fragment};
ghost use Rattle.lrc_code.specs.Codes.{fragment_count, data_count, group_size};
ghost use Rattle.lrc_code.specs.Losses.{FragmentSet, IsRecoverable, IsMargin, size_of, is_local};
ghost use Rattle.lrc_field.specs.Field.{plus, times, inverse};
ghost use Rattle.lrc_field.specs.Polynomials.{product, remainder};
ghost use Rattle.lrc_field.specs.Recipes.{IsRecipe, IsFirstRecipe, ComesFirst, readable, read_by};
ghost use Rattle.lrc_field.specs.Stripes.{Bytes, IsStripe, IsOfRows, outside};
ghost use Rattle.lrc_field.specs.Stripes.{Determines, IsDecodable, AreAlikeOutside, StaysDecodable, AreTooMany, IsDecodableMargin};

/// A product of two bytes is the product of their polynomials modulo x^8 + x^4 + x^3 + x^2 + 1.
pub fn products_are_remainders()
    ensures { (a b : ℕ) → a < 256 → b < 256 → times a b ≡ remainder 7 (product 8 a b) }
{}

/// The bytes are a field: sums and products are bytes, their order and brackets are free, products distribute over sums,
/// adding 0 and multiplying by 1 change nothing, each byte is its own negative, and each but 0 has an inverse.
pub fn bytes_are_a_field()
    ensures sums { (a b : ℕ) → a < 256 → b < 256 →
        (plus a b < 256) × (plus a b ≡ plus b a) × (plus a 0 ≡ a) × (plus a a ≡ 0) }
    ensures sums_of_three { (a b c : ℕ) → plus (plus a b) c ≡ plus a (plus b c) }
    ensures products { (a b : ℕ) → a < 256 → b < 256 → (times a b < 256) × (times a b ≡ times b a) × (times 1 a ≡ a) }
    ensures products_of_three { (a b c : ℕ) → a < 256 → b < 256 → c < 256 →
        times (times a b) c ≡ times a (times b c) }
    ensures products_of_sums { (a b c : ℕ) → a < 256 → b < 256 → c < 256 →
        times a (plus b c) ≡ plus (times a b) (times a c) }
    ensures inverses { (a : ℕ) → a < 256 → a ≢ 0 → times a (inverse a) ≡ 1 }
{}

/// The bytes are a stripe's exactly if each fragment is the sum of the data, each times its coefficient in the
/// fragment's row of the generator matrix.
pub fn stripes_are_of_rows()
    ensures { (code : Code) (v : Bytes) → IsStripe code v ↔ IsOfRows code v }
{}

/// Any data has exactly one stripe.
pub fn data_has_one_stripe()
    ensures some { (code : Code) (d : Bytes) → ((f : ℕ) → d f < 256) →
        (v : Bytes) × IsStripe code v × ((f : ℕ) → f < data_count code → v f ≡ d f) }
    ensures only { (code : Code) (v w : Bytes) → IsStripe code v → IsStripe code w →
        ((d : ℕ) → d < data_count code → v d ≡ w d) → (f : ℕ) → f < fragment_count code → v f ≡ w f }
{}

/// The fragments that are left of a stripe determine all exactly if the losses are recoverable, for either code and any
/// losses. Else there are two different stripes that have all these fragments in common.
pub fn recoverable_is_decodable()
    ensures recoverable { (code : Code) (m : FragmentSet) → IsRecoverable code m ↔ IsDecodable code m }
    ensures two_stripes { (code : Code) (m : FragmentSet) →
        (¬ IsDecodable code m) ↔ ((v : Bytes) × (w : Bytes) × AreAlikeOutside code m v w) }
{}

/// The margin is the greatest number of further losses after which what is left determines all, whichever fragments are
/// lost. It is the number of further losses that are never too many where one more can be: there is a set of that size
/// after which what is left does not determine all.
pub fn margin_is_decodable()
    ensures margin { (code : Code) (m : FragmentSet) (t : ℕ) → IsMargin code m t ↔ IsDecodableMargin code m t }
    ensures one_more { (code : Code) (m : FragmentSet) (t : ℕ) → IsMargin code m t ↔
        (StaysDecodable code m t × ((more : FragmentSet) × (size_of code more ≡ t + 1) × AreTooMany code m more)) }
{}

/// What is left of a stripe determines a lost fragment exactly if no other member of its local group is lost, or all
/// losses are recoverable. Fragments that determine another have all others of its local group among them, or are as
/// many as there are data fragments. A fragment has a recipe exactly if the others that are not missing determine it.
pub fn determined_fragments()
    ensures which { (code : Code) (m : FragmentSet) (f : Fragment) → f.value < fragment_count code → IsTrue (m f.value) →
        Determines code (outside m) f.value ↔ (IsTrue (is_local code m f) ⊎ IsRecoverable code m) }
    ensures fewest { (code : Code) (known : FragmentSet) (f : Fragment) →
        f.value < fragment_count code → IsFalse (known f.value) → Determines code known f.value →
        IsTrue (is_local code (outside known) f) ⊎ (data_count code ≤ size_of code known) }
    ensures recipe { (code : Code) (missing : FragmentSet) (f : Fragment) → f.value < fragment_count code →
        Determines code (readable missing f.value) f.value ↔ ((c : ℕ → ℕ) × IsRecipe code missing f.value c) }
{}

/// Of two sets of fragments one comes first by its fragments in rising order, and each does exactly if they are the same.
/// So a fragment that can be rebuilt has a first recipe, and only one.
pub fn first_recipes()
    ensures either { (code : Code) (s t : FragmentSet) → ComesFirst code s t ⊎ ComesFirst code t s }
    ensures both { (code : Code) (s t : FragmentSet) →
        (ComesFirst code s t × ComesFirst code t s) ↔ ((g : ℕ) → g < fragment_count code → s g ≡ t g) }
    ensures some { (code : Code) (missing : FragmentSet) (f : Fragment) → f.value < fragment_count code →
        Determines code (readable missing f.value) f.value ↔ ((c : ℕ → ℕ) × IsFirstRecipe code missing f.value c) }
    ensures only { (code : Code) (missing : FragmentSet) (f : ℕ) (c d : ℕ → ℕ) →
        IsFirstRecipe code missing f c → IsFirstRecipe code missing f d → (g : ℕ) → c g ≡ d g }
{}

/// Each recipe of a fragment reads as many fragments as its local group has others, if none of them is missing, and else
/// as many as there are data fragments. Two that read the same fragments have the same coefficients.
pub fn recipes_by_what_they_read()
    ensures count { (code : Code) (missing : FragmentSet) (f : Fragment) (c : ℕ → ℕ) → f.value < fragment_count code → IsRecipe code missing f.value c →
        size_of code (read_by c) ≡ (if is_local code missing f then group_size code else data_count code) }
    ensures coefficients { (code : Code) (missing : FragmentSet) (f : ℕ) (c d : ℕ → ℕ) → ((g : ℕ) → c g < 256) → ((g : ℕ) → d g < 256) →
        IsRecipe code missing f c → IsRecipe code missing f d → ((g : ℕ) → read_by c g ≡ read_by d g) → (g : ℕ) → c g ≡ d g }
{}
