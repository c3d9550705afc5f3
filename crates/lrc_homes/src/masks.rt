//! Masks of the fragments of a stripe.

ghost use Rattle.std.specs.Prelude.{◌≡◌, ℕ, if◌then◌else◌, ◌&&◌, ◌||◌, nat_eq};
ghost use Rattle.lrc_code.specs.Losses.{bits_set};

use lrc_code::{Fragment, LossMask};

/// The mask with these fragments added or removed.
pub fn put(mask: LossMask, fragments: LossMask, are_in: bool) -> LossMask
    ensures { (f : ℕ) → bits_set result.bits f ≡ (if bits_set fragments.bits f then are_in else bits_set mask.bits f) }
{
    if are_in {
        LossMask::from_bits(mask.bits | fragments.bits)
    } else {
        LossMask::from_bits(mask.bits & !fragments.bits)
    }
}

/// The mask with a fragment added, if `is_in`.
pub fn with_where(mask: LossMask, fragment: Fragment, is_in: bool) -> LossMask
    ensures { (f : ℕ) → bits_set result.bits f ≡ ((nat_eq f fragment.value && is_in) || bits_set mask.bits f) }
{
    if is_in { mask.with(fragment) } else { mask }
}
