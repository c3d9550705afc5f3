ghost use Rattle.std.specs.Prelude.{◌≡◌, ◌≤◌, List};
ghost use Rattle.std.specs.Iterator.{YieldsFirst, item_count};
ghost use Rattle.lrc_ranks.specs.Sets.{at_rank};
ghost use Rattle.lrc_ranks.specs.Ranks.{queue_from};

use crate::by_rank::{ByRank, Position};
use lrc_code::StripeNo;
use std::marker::Model;

/// The stripes that a walk of a queue has left, by rank and then by number.
#[derive(Drop)]
pub struct Work<'a> {
    ranks: &'a ByRank,
    position: Position,
}

impl<'a> Model for Work<'a> {
    ghost use Rattle.std.specs.Prelude.{◌≤◌, List};
    ghost use Rattle.lrc_code.specs.declared.numbers.StripeNo.{StripeNo as AnyStripe};
    ghost use Rattle.lrc_ranks.specs.Sets.{at_rank};
    ghost use Rattle.lrc_ranks.specs.Ranks.{queue_from};

    ghost Value = { List AnyStripe };

    ghost view = { λ w. queue_from (at_rank w.ranks.now) w.position.rank w.position.from };

    ghost invariant = { λ w. w.position.rank ≤ 4 };
}

impl<'a> Work<'a> {
    /// Returns the stripes from this position on.
    pub(crate) fn new(ranks: &'a ByRank, position: Position) -> Work<'a>
        requires { position.rank ≤ 4 }
        ensures { result ≡ queue_from (at_rank ranks.now) position.rank position.from }
    {
        Work { ranks, position }
    }
}

impl<'a> Iterator for Work<'a> {
    ghost use Rattle.lrc_code.specs.declared.numbers.StripeNo.{StripeNo as AnyStripe};

    type Item = StripeNo;

    ghost next_gives = { YieldsFirst (λ (left : List AnyStripe). left) };

    ghost remaining = { item_count (λ (left : List AnyStripe). left) };

    fn next(&mut self) -> Option<StripeNo> {
        self.ranks.next_stripe(&mut self.position)
    }
}
