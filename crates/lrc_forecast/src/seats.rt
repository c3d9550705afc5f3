//! The stripes with a seat on one of some nodes.

ghost use Rattle.std.specs.Prelude.{◌≡◌, length, get_or, None};
ghost use Rattle.std.specs.List.{list_any};
ghost use Rattle.lrc_code.specs.Codes.{all_fragments};
ghost use Rattle.lrc_book.specs.Books.{state_of};
ghost use Rattle.lrc_forecast.specs.Forecasts.{lease_target};
ghost use Rattle.lrc_forecast.specs.Hits.{has_seat_on_set};

use crate::hits::{NodeSet, is_on};
use lrc_book::{Book, Seat};
use lrc_code::{FRAGMENTS, Fragment, StripeNo};

/// Whether a home or the target of a live lease of the stripe is on a node of the set.
pub(crate) fn has_seat_on_any(
    book: &Book,
    stripe: StripeNo,
    homes: &[Option<Seat>; FRAGMENTS],
    nodes: &NodeSet,
) -> bool
    requires long { length nodes.now ≡ 65536 }
    ensures { result ≡ list_any (has_seat_on_set nodes.now (state_of book.now) stripe (λ f. get_or homes.now f None)) all_fragments }
{
    Fragment::all().iter().any(|fragment| has_seat_on(book, stripe, *fragment, homes, nodes))
}

/// Whether the home or the target of this fragment is on such a node.
fn has_seat_on(
    book: &Book,
    stripe: StripeNo,
    fragment: Fragment,
    homes: &[Option<Seat>; FRAGMENTS],
    nodes: &NodeSet,
) -> bool
    requires long { length nodes.now ≡ 65536 }
    ensures { result ≡ has_seat_on_set nodes.now (state_of book.now) stripe (λ f. get_or homes.now f None) fragment }
{
    is_on(homes[fragment.value as usize], nodes) || is_on(target(book, stripe, fragment), nodes)
}

/// The target of the live lease of a fragment.
fn target(book: &Book, stripe: StripeNo, fragment: Fragment) -> Option<Seat>
    ensures { result ≡ lease_target (state_of book.now) stripe fragment }
{
    book.lease(stripe, fragment).map(|lease| lease.target)
}
