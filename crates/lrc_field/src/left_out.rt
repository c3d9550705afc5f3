ghost use Rattle.std.specs.Prelude.{◌≡◌, ◌+◌, ◌<◌, ◌&&◌, find, unwrap_or, Some};
ghost use Rattle.lrc_code.specs.declared.codes.Class.TheVariants.{A, B, G};
ghost use Rattle.lrc_code.specs.Codes.{fragments, class_of, are_one_class, all_fragments, data_count as data_count_of};
ghost use Rattle.lrc_code.specs.Losses.{bits_set};
ghost use Rattle.lrc_field.specs.Weights.{place as place_of, lost_in, first_or, out_of_a, out_of_b, spare as spare_of, third_out, weights_without, by_third, with_locals, line as line_at};

use crate::equations::{Parity, Weights};
use crate::field::multiply;
use crate::matrix::data_count;
use lrc_code::{Class, Code, Fragment, LossMask};

/// The fragments that a recipe leaves out, beside the one that it rebuilds: a member of each local group, and a third.
#[derive(Clone, Copy)]
pub struct LeftOut {
    pub in_a: Fragment,
    pub in_b: Fragment,
    pub third: Fragment,
}

impl LeftOut {
    /// Returns what is left out where these others are lost: all of them, if they are recoverable with the fragment, and
    /// another of its local group is among them.
    pub(crate) fn of(code: Code, others: LossMask, fragment: Fragment) -> LeftOut
        ensures in_a { result.in_a.value ≡ out_of_a code (lost_in code A (bits_set others.bits)) }
        ensures in_b { result.in_b.value ≡ out_of_b code (lost_in code B (bits_set others.bits)) }
        ensures third { result.third.value ≡ third_out code (lost_in code A (bits_set others.bits)) (lost_in code B (bits_set others.bits)) (lost_in code G (bits_set others.bits)) fragment.value }
    {
        let in_a = first_of(code, Class::A, others, parity(code, 0));
        let in_b = first_of(code, Class::B, others, parity(code, 1));
        let in_g = first_of(code, Class::G, others, spare(code, fragment));
        let second_b = first_of(code, Class::B, others.without(in_b), in_g);
        let third = first_of(code, Class::A, others.without(in_a), second_b);
        LeftOut { in_a, in_b, third }
    }

    /// Returns the weights for which exactly the three fragments get 0.
    pub(crate) fn weights(self, code: Code) -> Weights
        ensures { result ≡ weights_without code self.in_a.value self.in_b.value self.third.value }
    {
        let globals = self.globals(code);
        Weights {
            local_a: line(globals, place(code, self.in_a)),
            local_b: line(globals, place(code, self.in_b)),
            global: globals.global,
            square: globals.square,
        }
    }

    /// Returns weights of the global equations alone, for which the third fragment and the other one of its local group
    /// get the same, or for which the third gets 0 if it is a global parity.
    fn globals(self, code: Code) -> Weights
        ensures { result ≡ by_third code self.in_a.value self.in_b.value self.third.value }
    {
        let third = place(code, self.third);
        if is_in(code, Class::A, self.third) {
            of_globals(place(code, self.in_a) ^ third, 1)
        } else if is_in(code, Class::B, self.third) {
            of_globals(place(code, self.in_b) ^ third, 1)
        } else if self.third.value == data_count(code) + 2 {
            of_globals(0, 1)
        } else {
            of_globals(1, 0)
        }
    }
}

/// Returns weights of the two global equations, and 0 for the local ones.
fn of_globals(global: u8, square: u8) -> Weights
    ensures { result ≡ record { local_a = 0; local_b = 0; global = global; square = square } }
{
    Weights {
        local_a: 0,
        local_b: 0,
        global,
        square,
    }
}

/// Reports whether the fragment is in a class of the code.
pub(crate) fn is_in(code: Code, class: Class, fragment: Fragment) -> bool
    ensures { result ≡ are_one_class (Some class) (class_of code fragment.value) }
{
    LossMask::of_class(code, class).contains(fragment)
}

/// Returns the place of a fragment in its local group: its factor in the first global parity, or 0 for a parity.
fn place(code: Code, fragment: Fragment) -> u8
    ensures { result ≡ place_of code fragment.value }
{
    if fragment.value < data_count(code) {
        Parity::Global.coefficient(code, fragment)
    } else {
        0
    }
}

/// Returns the sum of the two global equations at a place.
fn line(weights: Weights, place: u8) -> u8
    ensures { result ≡ line_at weights place }
{
    multiply(weights.global, place) ^ multiply(weights.square, multiply(place, place))
}

/// Returns a global parity other than the fragment.
fn spare(code: Code, fragment: Fragment) -> Fragment
    ensures { result.value ≡ spare_of code fragment.value }
{
    if fragment.value == data_count(code) + 3 {
        parity(code, 2)
    } else {
        parity(code, 3)
    }
}

/// Returns the first lost member of a class of the code, or another fragment if none is lost.
fn first_of(code: Code, class: Class, lost: LossMask, other: Fragment) -> Fragment
    ensures { result.value ≡ first_or (lost_in code class (bits_set lost.bits)) other.value }
{
    first_common(LossMask::of_class(code, class), lost).unwrap_or(other)
}

/// Returns the first fragment that is in both sets.
fn first_common(first: LossMask, second: LossMask) -> Option<Fragment>
    ensures { result ≡ find (λ f. bits_set first.bits f.value && bits_set second.bits f.value) all_fragments }
{
    Fragment::all().iter().copied().find(|fragment| first.contains(*fragment)
        && second.contains(*fragment))
}

/// Returns one of the four parities of the code, which are numbered from 0.
fn parity(code: Code, number: u8) -> Fragment
    requires { number < 4 }
    ensures { result.value ≡ data_count_of code + number }
{
    Fragment {
        value: data_count(code) + number,
    }
}
