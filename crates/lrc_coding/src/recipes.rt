//! Which recipe a mask of losses and a word for a fragment ask for.

ghost use Rattle.std.specs.Prelude.{◌≡◌, ◌≢◌, ℕ, ◌<◌, ◌≤◌, [], ◌∷◌, ◌++◌, length, decimal, IfSome, IfNone};
ghost use Rattle.lrc_code.specs.Codes.{fragment_count};
ghost use Rattle.lrc_coding.specs.Answers.{IsNumberOf, IsAnswer};

use crate::RecipeRefusal;
use lrc_code::{Code, Fragment, LossMask};
use lrc_field::Recipe;
use lrc_front::number_in_front;

/// Returns the recipe for the fragment that the word names, where the fragments of the mask are missing: of those that
/// read fewest the one whose fragments come first, in rising order. The mask is `None` where no set of losses was given.
///
/// # Errors
///
/// Why there is no such recipe: the first of the reasons that applies, in the order of `RecipeRefusal`.
pub fn recipe_for(code: Code, mask: Option<u16>, word: &str) -> Result<Recipe, RecipeRefusal>
    ensures { IsAnswer code mask word.now result }
{
    let losses = LossMask::from_bits(mask.ok_or(RecipeRefusal::NoMask)?);
    let fragment = parse_fragment(code, word.as_bytes()).ok_or(RecipeRefusal::NoFragment)?;
    if !losses.contains(fragment) {
        return Err(RecipeRefusal::NotMissing(fragment));
    }
    Recipe::of(code, losses, fragment).ok_or(RecipeRefusal::Undetermined(fragment))
}

/// Reads the number of a fragment of the code: a decimal number without leading zeros, and nothing else.
fn parse_fragment(code: Code, word: &[u8]) -> Option<Fragment>
    ensures some { IfSome result (λ f. IsNumberOf code word.now f.value) }
    ensures none { IfNone result ((f : ℕ) → f < fragment_count code → word.now ≢ decimal f) }
{
    match word {
        [one] => parse_line(code, &[*one, b'\n']),
        [ten, one] => parse_line(code, &[*ten, *one, b'\n']),
        _ => None,
    }
}

/// Reads the same number as a line of one digit or two, with its end.
fn parse_line(code: Code, line: &[u8]) -> Option<Fragment>
    requires { (2 ≤ length line.now) × (length line.now ≤ 3) }
    ensures some { IfSome result (λ f. (f.value < fragment_count code) × (line.now ≡ decimal f.value ++ 10 ∷ [])) }
    ensures none { IfNone result ((f : ℕ) → f < fragment_count code → line.now ≢ decimal f ++ 10 ∷ []) }
{
    let (number, rest) = number_in_front(line, line.len() - 1, u64::from(code.fragments()), b'\n')?;
    if !rest.is_empty() {
        return None;
    }
    Fragment::new(number as u8)
}
