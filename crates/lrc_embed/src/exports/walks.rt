//! Walks over what the book has, a buffer of rows at a time.

ghost use Rattle.std.specs.Prelude.{◌≡◌, ◌≢◌, ◌<◌, ◌↔◌, ◌⊎◌, ◌∷◌, [], true, is_some, None, take, length};
ghost use Rattle.lrc_topology.specs.Nodes.{node_at};
ghost use Rattle.lrc_images.specs.Rows.{node_no};
ghost use Rattle.lrc_walks.specs.WalkRows.{AreFirstRows, stripes_from, nodes_from, leases_from, homes_from};
ghost use Rattle.lrc_walks.specs.WalkRows.{entries_from};
ghost use Rattle.lrc_embed.specs.Calls.{Of};
ghost use Rattle.lrc_embed.specs.Walks.{IsWalk};
ghost use Rattle.lrc_embed.specs.Statuses.{IsOneOf};

use crate::LrcHandle;
use crate::status::{DONE, FORGOTTEN, IS_CLOSED, OUT_OF_MEMORY, UNKNOWN};
use lrc_book::Book;
use lrc_code::NodeNo;
use lrc_records::{LrcEntry, LrcFragment, LrcLease, LrcNode, LrcStripe};
use lrc_walks::{put_entries, put_homes, put_leases, put_nodes, put_stripes};
use std::alloc::Global;

/// The stripes from the number `from` on, in rising order.
#[unsafe(no_mangle)]
pub extern "C" fn lrc_embed_stripes(
    alloc: Global,
    handle: &mut LrcHandle,
    from: u16,
    rows: &mut [LrcStripe],
    count: &mut usize,
) -> u32
    ensures { IsWalk (λ b. stripes_from b from)
        handle.old.owned.book handle.new.owned.book result rows.old rows.new count.old count.new }
{
    let Some(book) = handle.take(alloc) else {
        return IS_CLOSED;
    };
    *count = put_stripes(&book, from, rows);
    handle.put(book);
    DONE
}

/// The nodes from a position on, in the order of the text.
#[unsafe(no_mangle)]
pub extern "C" fn lrc_embed_nodes(
    alloc: Global,
    handle: &mut LrcHandle,
    from: usize,
    rows: &mut [LrcNode],
    count: &mut usize,
) -> u32
    ensures { IsWalk (λ b. nodes_from b from)
        handle.old.owned.book handle.new.owned.book result rows.old rows.new count.old count.new }
{
    let Some(book) = handle.take(alloc) else {
        return IS_CLOSED;
    };
    *count = put_nodes(&book, from, rows);
    handle.put(book);
    DONE
}

/// The live leases from a fragment on, in rising order of stripe and fragment.
#[unsafe(no_mangle)]
pub extern "C" fn lrc_embed_leases(
    alloc: Global,
    handle: &mut LrcHandle,
    from_stripe: u16,
    from_fragment: u8,
    rows: &mut [LrcLease],
    count: &mut usize,
) -> u32
    ensures { IsWalk (λ b. leases_from b from_stripe from_fragment)
        handle.old.owned.book handle.new.owned.book result rows.old rows.new count.old count.new }
{
    let Some(book) = handle.take(alloc) else {
        return IS_CLOSED;
    };
    *count = put_leases(&book, from_stripe, from_fragment, rows);
    handle.put(book);
    DONE
}

/// The fragments from one on that have a home on a node, in rising order of stripe and fragment.
#[unsafe(no_mangle)]
pub extern "C" fn lrc_embed_homes_on(
    alloc: Global,
    handle: &mut LrcHandle,
    node: u16,
    from_stripe: u16,
    from_fragment: u8,
    rows: &mut [LrcFragment],
    count: &mut usize,
) -> u32
    ensures same { handle.new.owned.book ≡ handle.old.owned.book }
    ensures done { (result ≡ DONE) → Of handle.old.owned.book (λ b.
        AreFirstRows (take (length rows.old) (homes_from b (node_no node) from_stripe from_fragment))
        count.new rows.old rows.new) }
    ensures known { (result ≡ DONE) → Of handle.old.owned.book (λ b. is_some (node_at b.nodes (node_no node)) ≡ true) }
    ensures unknown { (result ≡ UNKNOWN) → Of handle.old.owned.book (λ b. node_at b.nodes (node_no node) ≡ None) }
    ensures closed { (result ≡ IS_CLOSED) → handle.old.owned.book ≡ None }
    // Neither a closed handle nor an unknown node takes memory.
    ensures memory { (result ≡ OUT_OF_MEMORY) → Of handle.old.owned.book (λ b.
        is_some (node_at b.nodes (node_no node)) ≡ true) }
    ensures statuses { IsOneOf result (DONE ∷ IS_CLOSED ∷ UNKNOWN ∷ OUT_OF_MEMORY ∷ []) }
    ensures unwritten { (result ≢ DONE) → (rows.new ≡ rows.old) × (count.new ≡ count.old) }
{
    let Some(book) = handle.take(alloc) else {
        return IS_CLOSED;
    };
    let status = put_homes_on(
        alloc,
        &book,
        NodeNo { value: node },
        from_stripe,
        from_fragment,
        rows,
        count,
    );
    handle.put(book);
    status
}

/// Writes the first fragments from one on that have a home on a node.
fn put_homes_on(
    alloc: Global,
    book: &Book,
    node: NodeNo,
    from_stripe: u16,
    from_fragment: u8,
    rows: &mut [LrcFragment],
    count: &mut usize,
) -> u32
    ensures done { (result ≡ DONE)
        → AreFirstRows (take (length rows.old) (homes_from book.now node from_stripe from_fragment))
        count.new rows.old rows.new }
    ensures known { (result ≡ DONE) ⊎ (result ≡ OUT_OF_MEMORY) → is_some (node_at book.now.nodes node) ≡ true }
    ensures unknown { (result ≡ UNKNOWN) → node_at book.now.nodes node ≡ None }
    ensures statuses { IsOneOf result (DONE ∷ UNKNOWN ∷ OUT_OF_MEMORY ∷ []) }
    ensures unwritten { (result ≢ DONE) → (rows.new ≡ rows.old) × (count.new ≡ count.old) }
{
    if book.topology().node(node).is_none() {
        return UNKNOWN;
    }
    match book.homes_on(alloc, node) {
        Ok(homes) => {
            *count = put_homes(homes.as_slice(), from_stripe, from_fragment, rows);
            DONE
        }
        Err(_) => OUT_OF_MEMORY,
    }
}

/// The store's entries from a place on, which is the number of those before it. The place may not be before the
/// history: what stands there is forgotten, or was never in this book.
#[unsafe(no_mangle)]
pub extern "C" fn lrc_embed_entries(
    alloc: Global,
    handle: &mut LrcHandle,
    place: u64,
    rows: &mut [LrcEntry],
    count: &mut usize,
) -> u32
    ensures same { handle.new.owned.book ≡ handle.old.owned.book }
    ensures done { (result ≡ DONE) → Of handle.old.owned.book (λ b.
        AreFirstRows (take (length rows.old) (entries_from b place)) count.new rows.old rows.new) }
    ensures forgotten { (result ≢ IS_CLOSED)
        → Of handle.old.owned.book (λ b. (result ≡ FORGOTTEN) ↔ (place < b.before)) }
    ensures closed { (result ≡ IS_CLOSED) → handle.old.owned.book ≡ None }
    ensures statuses { IsOneOf result (DONE ∷ IS_CLOSED ∷ FORGOTTEN ∷ []) }
    ensures unwritten { (result ≢ DONE) → (rows.new ≡ rows.old) × (count.new ≡ count.old) }
{
    let Some(book) = handle.take(alloc) else {
        return IS_CLOSED;
    };
    let status = put_remembered(&book, place, rows, count);
    handle.put(book);
    status
}

/// Writes the first entries from a place on, if none of them is forgotten.
fn put_remembered(book: &Book, place: u64, rows: &mut [LrcEntry], count: &mut usize) -> u32
    ensures done { (result ≡ DONE)
        → AreFirstRows (take (length rows.old) (entries_from book.now place)) count.new rows.old rows.new }
    ensures forgotten { (result ≡ FORGOTTEN) ↔ (place < book.now.before) }
    ensures statuses { IsOneOf result (DONE ∷ FORGOTTEN ∷ []) }
    ensures unwritten { (result ≢ DONE) → (rows.new ≡ rows.old) × (count.new ≡ count.old) }
{
    if place < book.before() {
        return FORGOTTEN;
    }
    *count = put_entries(book, place, rows);
    DONE
}
