//! The set of the fragments without a home, by the homes that `Book::homes` returns.

ghost use Rattle.std.specs.Prelude.{◌≡◌, map};
ghost use Rattle.lrc_code.specs.Codes.{fragments, all_fragments};
ghost use Rattle.lrc_code.specs.Losses.{bits_of};
ghost use Rattle.lrc_terms.specs.Levels.{Homes, homeless_in};

use lrc_code::{Code, FRAGMENTS, Fragment, LossMask};
use lrc_topology::Seat;

/// The fragments of a stripe without a home, by the home of each fragment number.
pub fn homeless_of(code: Code, homes: &[Option<Seat>; FRAGMENTS]) -> LossMask
    ensures { (of : Homes) → homes.now ≡ map (λ f. of f.value) all_fragments → result.bits ≡ bits_of code (homeless_in code of) }
{
    let mut set = LossMask::from_bits(0);
    for fragment in Fragment::all() {
        if fragment.value < code.fragments() && homes[fragment.value as usize].is_none() {
            set = set.with(fragment);
        }
    }
    set
}
