//! The first rows of what a book has, as many as a buffer takes.

ghost use Rattle.std.specs.Prelude.{◌≡◌, ℕ, ◌-◌, ◌<◌, ◌≤◌, if◌then◌else◌, Option, Some, None, option_map, take, drop, length, map, filter, slice_get};
ghost use Rattle.std.specs.List.{filter_map, range_with_len};
ghost use Rattle.std.specs.Option.{option_flatten};
ghost use Rattle.lrc_topology.specs.Nodes.{node_at};
ghost use Rattle.lrc_terms.specs.Stripes.{stripe_at};
ghost use Rattle.lrc_rules.specs.States.{has_stripe, lease_of};
ghost use Rattle.lrc_book.specs.Books.{state_of};
ghost use Rattle.lrc_records.specs.Replies.{encoded_lease, encoded_entry};
ghost use Rattle.lrc_records.specs.Shown.{encoded_fragment};
ghost use Rattle.lrc_walks.specs.WalkRows.{AreFirstRows, is_from, place_at, stripe_record, stripes_from, node_record, nodes_from, leases_from, entries_from};

use lrc_book::{Book, Entry};
use lrc_code::{FRAGMENTS, Fragment, STRIPES, StripeNo};
use lrc_records::{LrcEntry, LrcFragment, LrcLease, LrcNode, LrcStripe};
use lrc_topology::NodeInfo;

/// Writes what is found at the positions from `start` to `end` into the first rows, as much as there is room for, and
/// returns its number.
fn put_found<T: Copy, F: Fn(usize) -> Option<T>>(
    start: usize,
    end: usize,
    rows: &mut [T],
    find: F,
) -> usize
    requires callable { F.IsAlwaysCallable find }
    ensures { (f : ℕ → Option T) → ((i : ℕ) (found : Option T) → start ≤ i → i < end → F.post find i found → found ≡ f i)
        → AreFirstRows (take (length rows.old) (filter_map f (range_with_len start (end - start)))) result rows.old rows.new }
{
    let mut count = 0;
    for i in start..end {
        if count == rows.len() {
            return count;
        }
        if let Some(row) = find(i) {
            rows[count] = row;
            count += 1;
        }
    }
    count
}

/// Writes the first stripes from a number on.
pub fn put_stripes(book: &Book, from: u16, rows: &mut [LrcStripe]) -> usize
    ensures { AreFirstRows (take (length rows.old) (stripes_from book.now from)) result rows.old rows.new }
{
    put_found(
        from as usize,
        STRIPES,
        rows,
        |number| stripe_numbered(book, number),
    )
}

/// The row of the stripe of a number, if there is one.
fn stripe_numbered(book: &Book, number: usize) -> Option<LrcStripe>
    ensures { number < 4096 → result ≡ (if has_stripe (state_of book.now) (stripe_at number) then Some (stripe_record book.now.nodes (state_of book.now) (stripe_at number)) else None) }
{
    row_of(book, StripeNo::new(u16::try_from(number).ok()?)?)
}

/// The row of a stripe, if it is there.
fn row_of(book: &Book, stripe: StripeNo) -> Option<LrcStripe>
    ensures { result ≡ (if has_stripe (state_of book.now) stripe then Some (stripe_record book.now.nodes (state_of book.now) stripe) else None) }
{
    Some(LrcStripe::of(
        stripe,
        book.code(stripe)?,
        book.missing(stripe)?,
        book.level(stripe)?,
    ))
}

/// Writes the first nodes from a position on.
pub fn put_nodes(book: &Book, from: usize, rows: &mut [LrcNode]) -> usize
    ensures { AreFirstRows (take (length rows.old) (nodes_from book.now from)) result rows.old rows.new }
{
    let end = book.topology().nodes().as_slice().len();
    put_found(from, end, rows, |position| node_in(book, position))
}

/// The row of the node at a position of the text.
fn node_in(book: &Book, position: usize) -> Option<LrcNode>
    ensures { result ≡ option_map (node_record (state_of book.now)) (slice_get book.now.nodes position) }
{
    let nodes = book.topology().nodes();
    let node = node_at(nodes.as_slice(), position)?;
    Some(node_record(book, &node))
}

/// The node at a position, if there is one.
fn node_at(nodes: &[NodeInfo], position: usize) -> Option<NodeInfo>
    ensures { result ≡ slice_get nodes.now position }
{
    nodes.get(position).copied()
}

/// The row of a node of the book.
fn node_record(book: &Book, node: &NodeInfo) -> LrcNode
    requires { node_at book.now.nodes node.now.number ≡ Some node.now }
    ensures { result ≡ node_record (state_of book.now) node.now }
{
    LrcNode::of(
        node,
        book.mode(node.number).unwrap(),
        book.is_down(node.number).unwrap(),
        book.load(node.number).unwrap(),
    )
}

/// Writes the first live leases from a fragment on.
pub fn put_leases(book: &Book, from_stripe: u16, from_fragment: u8, rows: &mut [LrcLease]) -> usize
    ensures { AreFirstRows (take (length rows.old) (leases_from book.now from_stripe from_fragment)) result rows.old rows.new }
{
    put_found(
        FRAGMENTS * from_stripe as usize,
        FRAGMENTS * STRIPES,
        rows,
        |place| lease_at(book, place, from_stripe, from_fragment),
    )
}

/// The live lease at a place, where each stripe has sixteen; none before the fragment from which the walk goes.
fn lease_at(book: &Book, place: usize, from_stripe: u16, from_fragment: u8) -> Option<LrcLease>
    ensures { place < 65536 → result ≡ (if is_from from_stripe from_fragment (place_at place) then option_map encoded_lease (lease_of (state_of book.now) (place_at place).0 (place_at place).1) else None) }
{
    let stripe = StripeNo::new(u16::try_from(place / FRAGMENTS).ok()?)?;
    let fragment = Fragment::new((place % FRAGMENTS) as u8)?;
    if !is_from(stripe, fragment, from_stripe, from_fragment) {
        return None;
    }
    Some(LrcLease::of(&book.lease(stripe, fragment)?))
}

/// Whether the fragment is that of these numbers, or comes after it.
fn is_from(stripe: StripeNo, fragment: Fragment, from_stripe: u16, from_fragment: u8) -> bool
    ensures { result ≡ is_from from_stripe from_fragment (stripe, fragment) }
{
    from_stripe < stripe.value || (from_stripe == stripe.value && from_fragment <= fragment.value)
}

/// Writes the first of these fragments from one on.
pub fn put_homes(
    homes: &[(StripeNo, Fragment)],
    from_stripe: u16,
    from_fragment: u8,
    rows: &mut [LrcFragment],
) -> usize
    ensures { AreFirstRows (take (length rows.old) (map encoded_fragment (filter (is_from from_stripe from_fragment) homes.now))) result rows.old rows.new }
{
    put_found(
        0,
        homes.len(),
        rows,
        |i| home_at(homes, i, from_stripe, from_fragment),
    )
}

/// The fragment at an index, if the walk goes over it.
fn home_at(
    homes: &[(StripeNo, Fragment)],
    i: usize,
    from_stripe: u16,
    from_fragment: u8,
) -> Option<LrcFragment>
    ensures { result ≡ option_flatten (option_map (λ p. if is_from from_stripe from_fragment p then Some (encoded_fragment p) else None) (slice_get homes.now i)) }
{
    let (stripe, fragment) = *homes.get(i)?;
    if !is_from(stripe, fragment, from_stripe, from_fragment) {
        return None;
    }
    Some(LrcFragment::of((stripe, fragment)))
}

/// Writes the first of the store's entries from a place on, which is the number of those before it.
pub fn put_entries(book: &Book, place: u64, rows: &mut [LrcEntry]) -> usize
    requires remembered { book.now.before ≤ place }
    ensures { AreFirstRows (take (length rows.old) (entries_from book.now place)) result rows.old rows.new }
{
    put_history(book, (place - book.before()) as usize, rows)
}

/// Writes the first entries of the history from an index on.
fn put_history(book: &Book, from: usize, rows: &mut [LrcEntry]) -> usize
    ensures { AreFirstRows (take (length rows.old) (map encoded_entry (drop from book.now.history))) result rows.old rows.new }
{
    let end = book.history().len();
    put_found(from, end, rows, |index| encoded_at(book, index))
}

/// The entry at an index, as C has it.
fn encoded_at(book: &Book, index: usize) -> Option<LrcEntry>
    ensures { result ≡ option_map encoded_entry (slice_get book.now.history index) }
{
    Some(LrcEntry::of(&entry_at(book, index)?))
}

/// The entry of a book's history at an index, if there is one.
pub fn entry_at(book: &Book, index: usize) -> Option<Entry>
    ensures { result ≡ slice_get book.now.history index }
{
    let record = book.history().get(index)?;
    Some(record.entry())
}
