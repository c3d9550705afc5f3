ghost use Rattle.std.specs.Prelude.{◌≡◌, false, length, slice_set, IfSome};
ghost use Rattle.lrc_ranks.specs.Sets.{FindsNext, has};

use lrc_bits::{BitSet, Members};
use lrc_code::StripeNo;
use std::marker::Model;

/// An iterator over the stripes of a set, in rising order. Its value is the stripes that are left.
#[derive(Drop)]
pub struct StripeMembers<'a> {
    numbers: Members<'a>,
}

impl<'a> Model for StripeMembers<'a> {
    ghost use Rattle.std.specs.Prelude.{◌≡◌, Bool, List, length};

    ghost Value = { List Bool };

    ghost view = { λ m. m.numbers };

    ghost invariant = { λ m. length m.numbers ≡ 4096 };
}

impl<'a> StripeMembers<'a> {
    /// Returns an iterator over all stripes of the set.
    pub(crate) fn new(bits: &'a BitSet<64>) -> StripeMembers<'a>
        requires { length bits.now ≡ 4096 }
        ensures { result ≡ bits.now }
    {
        StripeMembers {
            numbers: bits.members(),
        }
    }

    /// Returns the first stripe that is left, and passes it.
    #[inline(always)] // in a loop the current word then stays in a register
    pub fn next_stripe(&mut self) -> Option<StripeNo>
        ensures first { FindsNext (has self.old) 0 result }
        ensures left { IfSome result (λ s. self.new ≡ slice_set self.old s.value false) }
    {
        let number = self.numbers.next_member()?;
        Some(StripeNo {
            value: number as u16,
        })
    }
}
