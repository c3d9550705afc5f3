//! Viewers of a published book.

ghost use Rattle.std.specs.Prelude.{◌≡◌, ◌≢◌, ◌⊎◌, ◌↔◌, ◌∷◌, [], None, IsTrue, IfOk, IfErr};
ghost use Rattle.lrc_topology.specs.Documents.{IsTopologyOf};
ghost use Rattle.lrc_book.specs.Books.{IsSpent, IsImageOfBook};
ghost use Rattle.lrc_embed.specs.Calls.{Of};
ghost use Rattle.lrc_embed.specs.Published.{Both, IsAnyOpen, IsAt, IsViewOf};
ghost use Rattle.lrc_embed.specs.Statuses.{IsOneOf};

use crate::exports::place::is_at;
use crate::status::{DIFFERENT, DONE, FULL, IS_CLOSED, IS_OPEN, MOVED, OUT_OF_MEMORY};
use crate::{LrcPublished, LrcViewer};
use lrc_book::{Book, Image};
use lrc_code::Fault;
use lrc_feed::FeedEnd;
use lrc_openings::begin_over;
use lrc_topology::{NodeInfo, Topology, TopologyError};
use std::alloc::{AllocError, Global};

/// Makes a viewer of a published book, whose nodes are those of the text. Its book begins in the image of the published one.
#[unsafe(no_mangle)]
pub extern "C" fn lrc_embed_view(
    alloc: Global,
    published: &mut LrcPublished,
    nodes: &[u8],
    viewer: &mut LrcViewer,
) -> u32
    ensures done { (result ≡ DONE) → Both published.old.book.owned.book published.old.feed.owned.end
        (λ b e. Both viewer.new.book.owned.book viewer.new.feed.owned.end (λ view f. IsViewOf b view × (f ≡ e))) }
    ensures same { (published.new.book.owned.book ≡ published.old.book.owned.book)
        × (published.new.feed.owned.end ≡ published.old.feed.owned.end) }
    ensures unchanged { (result ≢ DONE) → (viewer.new.book.owned.book ≡ viewer.old.book.owned.book)
        × (viewer.new.feed.owned.end ≡ viewer.old.feed.owned.end) }
    ensures open { (result ≡ IS_OPEN) ↔ IsAnyOpen viewer.old.book.owned.book viewer.old.feed.owned.end }
    ensures closed { (result ≡ IS_CLOSED)
        → (published.old.book.owned.book ≡ None) ⊎ (published.old.feed.owned.end ≡ None) }
    ensures moved { (result ≢ IS_OPEN) → (result ≢ IS_CLOSED)
        → Both published.old.book.owned.book published.old.feed.owned.end (λ b e. (result ≡ MOVED) ↔ (¬ IsAt b e)) }
    ensures full { (result ≢ IS_OPEN) → (result ≢ IS_CLOSED) → (result ≢ MOVED)
        → Of published.old.book.owned.book (λ b. (result ≡ FULL) ↔ IsSpent b) }
    ensures different { (result ≢ IS_OPEN) → (result ≢ IS_CLOSED) → (result ≢ MOVED) → (result ≢ FULL)
        → (result ≢ OUT_OF_MEMORY)
        → Of published.old.book.owned.book (λ b. (result ≡ DIFFERENT) ↔ (¬ IsTopologyOf nodes.now b.nodes)) }
    ensures statuses { IsOneOf result
        (DONE ∷ IS_CLOSED ∷ IS_OPEN ∷ FULL ∷ OUT_OF_MEMORY ∷ DIFFERENT ∷ MOVED ∷ []) }
{
    if viewer.book.is_open() || viewer.feed.is_open() {
        return IS_OPEN;
    }
    let Some(end) = published.feed.take(alloc) else {
        return IS_CLOSED;
    };
    let Some(book) = published.book.take(alloc) else {
        published.feed.put(end);
        return IS_CLOSED;
    };
    let status = open_view(alloc, &book, &end, nodes, viewer);
    published.book.put(book);
    published.feed.put(end);
    status
}

/// Closes a viewer and frees its book. A closed one stays closed.
#[unsafe(no_mangle)]
pub extern "C" fn lrc_embed_close_viewer(alloc: Global, viewer: &mut LrcViewer) -> u32
    ensures closed { (viewer.new.book.owned.book ≡ None) × (viewer.new.feed.owned.end ≡ None) }
    ensures status { result ≡ DONE }
{
    viewer.book.close(alloc);
    let _end = viewer.feed.take(alloc);
    DONE
}

/// Opens a closed viewer with a book that begins in the image of this one, and another end at the same place.
fn open_view(alloc: Global, book: &Book, end: &FeedEnd, nodes: &[u8], viewer: &mut LrcViewer) -> u32
    requires closed { (viewer.old.book.owned.book ≡ None) × (viewer.old.feed.owned.end ≡ None) }
    ensures done { (result ≡ DONE) → Both viewer.new.book.owned.book viewer.new.feed.owned.end
        (λ view f. IsViewOf book.now view × (f ≡ end.now)) }
    ensures unchanged { (result ≢ DONE) → (viewer.new.book.owned.book ≡ None) × (viewer.new.feed.owned.end ≡ None) }
    ensures moved { (result ≡ MOVED) ↔ (¬ IsAt book.now end.now) }
    ensures full { (result ≢ MOVED) → (result ≡ FULL) ↔ IsSpent book.now }
    ensures different { (result ≢ MOVED) → (result ≢ FULL) → (result ≢ OUT_OF_MEMORY)
        → (result ≡ DIFFERENT) ↔ (¬ IsTopologyOf nodes.now book.now.nodes) }
    ensures statuses { IsOneOf result (DONE ∷ FULL ∷ OUT_OF_MEMORY ∷ DIFFERENT ∷ MOVED ∷ []) }
{
    if !is_at(book, end.place()) {
        return MOVED;
    }
    let (topology, image) = match start_of(alloc, book, nodes) {
        Ok(start) => start,
        Err(status) => return status,
    };
    let Ok(other) = another_end(alloc, end) else {
        return OUT_OF_MEMORY;
    };
    match begin_over(alloc, topology, image) {
        Ok(view) => {
            viewer.book.put(view);
            viewer.feed.put(other);
            DONE
        }
        Err(_) => OUT_OF_MEMORY,
    }
}

/// The nodes and the image of a book, if the nodes are those of the text. Else the status.
fn start_of(alloc: Global, book: &Book, nodes: &[u8]) -> Result<(Topology, Image), u32>
    ensures value { IfOk result (λ start. (start.0 ≡ book.now.nodes) × IsImageOfBook book.now start.1) }
    ensures free { IfOk result (λ start. ¬ IsSpent book.now) }
    ensures same { IfOk result (λ start. IsTopologyOf nodes.now book.now.nodes) }
    ensures full { IfErr result (λ status. (status ≡ FULL) ↔ IsSpent book.now) }
    ensures different { IfErr result (λ status. (status ≡ DIFFERENT) → ¬ IsTopologyOf nodes.now book.now.nodes) }
    ensures statuses { IfErr result (λ status. IsOneOf status (FULL ∷ OUT_OF_MEMORY ∷ DIFFERENT ∷ [])) }
{
    let image = match book.image(alloc) {
        Ok(image) => image,
        Err(Fault::HistoryFull) => return Err(FULL),
        Err(Fault::OutOfMemory) => return Err(OUT_OF_MEMORY),
    };
    let topology = same_nodes(alloc, book.topology(), nodes)?;
    Ok((topology, image))
}

/// Another end of the feed at the same place, in a box.
fn another_end(alloc: Global, end: &FeedEnd) -> Result<Box<FeedEnd>, AllocError>
    ensures { IfOk result (λ other. other.value ≡ end.now) }
{
    Ok(Box::new(alloc, end.again()?)?)
}

/// The nodes of the text, if they are these. Else the status.
fn same_nodes(alloc: Global, topology: &Topology, nodes: &[u8]) -> Result<Topology, u32>
    ensures value { IfOk result (λ it. (it ≡ topology.now) × IsTopologyOf nodes.now topology.now) }
    ensures different { IfErr result (λ status. (status ≡ DIFFERENT) → ¬ IsTopologyOf nodes.now topology.now) }
    ensures statuses { IfErr result (λ status. IsOneOf status (OUT_OF_MEMORY ∷ DIFFERENT ∷ [])) }
{
    let read = match Topology::read(alloc, nodes) {
        Ok(read) => read,
        Err(TopologyError::OutOfMemory) => return Err(OUT_OF_MEMORY),
        Err(_) => return Err(DIFFERENT),
    };
    match are_alike(alloc, topology, &read) {
        Ok(true) => Ok(read),
        Ok(false) => Err(DIFFERENT),
        Err(_) => Err(OUT_OF_MEMORY),
    }
}

/// Whether two topologies have the same nodes in the same order.
fn are_alike(alloc: Global, one: &Topology, other: &Topology) -> Result<bool, AllocError>
    ensures { IfOk result (λ same. IsTrue same ↔ (other.now ≡ one.now)) }
{
    let ones = nodes_of(alloc, one)?;
    let others = nodes_of(alloc, other)?;
    Ok(others.as_slice() == ones.as_slice())
}

fn nodes_of(alloc: Global, topology: &Topology) -> Result<Vec<NodeInfo>, AllocError>
    ensures { IfOk result (λ v. v.items ≡ topology.now) }
{
    topology.nodes().map(|node| *node).collect(alloc)
}
