//! The fragments with a home on one of some nodes, and the leases that end with these.

ghost use Rattle.std.specs.Prelude.{◌≡◌, ℕ, false, not, ◌&&◌, ◌||◌, map, count_by, length, Some};
ghost use Rattle.std.specs.Option.{option_map_or};
ghost use Rattle.lrc_code.specs.Codes.{fragments, has_fragment, all_fragments};
ghost use Rattle.lrc_code.specs.Losses.{bits_set};
ghost use Rattle.lrc_terms.specs.Levels.{Homes};
ghost use Rattle.lrc_rules.specs.States.{lease_of};
ghost use Rattle.lrc_book.specs.Books.{state_of};
ghost use Rattle.lrc_forecast.specs.Hits.{IsSetOf, is_on_set, has_lease_on_set};

use lrc_bits::BitSet;
use lrc_book::{Book, Seat};
use lrc_code::{Code, FRAGMENTS, Fragment, LossMask, NodeNo, StripeNo};
use lrc_homes::masks;

/// A set of node numbers, one bit for each `u16`.
pub(crate) type NodeSet = BitSet<1024>;

/// The set of these nodes.
pub(crate) fn set_of(nodes: &[NodeNo]) -> NodeSet
    ensures long { length result ≡ 65536 }
    ensures each { IsSetOf nodes.now result }
{
    let mut set = BitSet::new();
    for node in nodes {
        set.insert(node.value as usize);
    }
    set
}

/// The fragments of the code with a home on a node of the set, by the home of each fragment number.
pub(crate) fn fragments_on(
    code: Code,
    homes: &[Option<Seat>; FRAGMENTS],
    nodes: &NodeSet,
) -> LossMask
    requires long { length nodes.now ≡ 65536 }
    ensures { (of : Homes) → homes.now ≡ map (λ f. of f.value) all_fragments
        → (f : ℕ) → bits_set result.bits f ≡ (has_fragment code f && is_on_set nodes.now (of f)) }
{
    let mut set = LossMask::from_bits(0);
    for fragment in Fragment::all() {
        if fragment.value < code.fragments() && is_on(homes[fragment.value as usize], nodes) {
            set = set.with(fragment);
        }
    }
    set
}

/// Whether the seat is on a node of the set.
pub(crate) fn is_on(seat: Option<Seat>, nodes: &NodeSet) -> bool
    requires long { length nodes.now ≡ 65536 }
    ensures { result ≡ is_on_set nodes.now seat }
{
    match seat {
        Some(seat) => nodes.contains(seat.node.value as usize),
        None => false,
    }
}

/// How many live leases of a stripe have their target or a home of their fragment on a node of the set.
pub(crate) fn leases_on(
    book: &Book,
    stripe: StripeNo,
    homes: &[Option<Seat>; FRAGMENTS],
    nodes: &NodeSet,
) -> u8
    requires long { length nodes.now ≡ 65536 }
    ensures { (of : Homes) → homes.now ≡ map (λ f. of f.value) all_fragments
        → result ≡ count_by (has_lease_on_set nodes.now (state_of book.now) stripe of) all_fragments }
{
    let mut count = 0;
    for fragment in Fragment::all() {
        if has_lease_on(
            book,
            stripe,
            fragment,
            homes[fragment.value as usize],
            nodes,
        ) {
            count += 1;
        }
    }
    count
}

/// Whether the fragment, with this home, has a live lease that has its target or the home on a node of the set.
fn has_lease_on(
    book: &Book,
    stripe: StripeNo,
    fragment: Fragment,
    home: Option<Seat>,
    nodes: &NodeSet,
) -> bool
    requires long { length nodes.now ≡ 65536 }
    ensures { result ≡ option_map_or (λ l. is_on_set nodes.now (Some l.target) || is_on_set nodes.now home) (lease_of (state_of book.now) stripe fragment) false }
{
    match book.lease(stripe, fragment) {
        Some(lease) => is_on(Some(lease.target), nodes) || is_on(home, nodes),
        None => false,
    }
}

/// The fragments of both sets.
pub(crate) fn joined(set: LossMask, more: LossMask) -> LossMask
    ensures { (f : ℕ) → bits_set result.bits f ≡ (bits_set set.bits f || bits_set more.bits f) }
{
    masks::put(set, more, true)
}

/// The fragments of the first set that are not in the second.
pub(crate) fn without(set: LossMask, less: LossMask) -> LossMask
    ensures { (f : ℕ) → bits_set result.bits f ≡ (bits_set set.bits f && not (bits_set less.bits f)) }
{
    masks::put(set, less, false)
}
