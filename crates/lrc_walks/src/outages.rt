//! What becomes of the stripes if nodes stop or are lost.

ghost use Rattle.std.specs.Prelude.{◌≡◌, ◌≤◌, is_some, length, map, IfOk, IfErr};
ghost use Rattle.lrc_code.specs.declared.fault.Fault.TheVariants as fault;
ghost use Rattle.lrc_topology.specs.Nodes.{node_at};
ghost use Rattle.lrc_images.specs.Rows.{node_no};
ghost use Rattle.lrc_walks.specs.Outages.{outage_of, are_nodes, outlooks_of, outlook_row};
ghost use Rattle.lrc_walks.specs.WalkRows.{AreFirstRows};

use lrc_book::Book;
use lrc_code::{Fault, NodeNo};
use lrc_forecast::{Outage, Outlook, forecast};
use lrc_records::LrcOutlook;
use std::alloc::{AllocError, Global};

/// The outage of a number.
pub fn outage_numbered(number: u8) -> Option<Outage>
    ensures { result ≡ outage_of number }
{
    match number {
        1 => Some(Outage::Stop),
        2 => Some(Outage::Lose),
        _ => None,
    }
}

/// Whether the store has all these nodes.
pub fn are_nodes(book: &Book, nodes: &[u16]) -> bool
    ensures { result ≡ are_nodes book.now nodes.now }
{
    nodes.iter().all(|number| is_node(book, *number))
}

/// Whether the store has the node of a number.
fn is_node(book: &Book, number: u16) -> bool
    ensures { result ≡ is_some (node_at book.now.nodes (node_no number)) }
{
    book.topology().node(NodeNo { value: number }).is_some()
}

/// What becomes of the stripes.
pub fn outlooks(
    alloc: Global,
    book: &Book,
    outage: Outage,
    nodes: &[u16],
) -> Result<Vec<Outlook>, Fault>
    ensures value { IfOk result (λ rows. rows.items ≡ outlooks_of book.now outage nodes.now) }
    ensures err { IfErr result (λ e. e ≡ fault.OutOfMemory) }
{
    let nodes = numbered(alloc, nodes)?;
    forecast(alloc, book, outage, nodes.as_slice())
}

/// The nodes of these numbers.
fn numbered(alloc: Global, nodes: &[u16]) -> Result<Vec<NodeNo>, AllocError>
    ensures { IfOk result (λ numbers. numbers.items ≡ map node_no nodes.now) }
{
    let mut numbers = Vec::new(alloc);
    for node in nodes {
        numbers.push(NodeNo { value: *node })?;
    }
    Ok(numbers)
}

/// Writes outlooks into the first rows.
pub fn put_outlooks(outlooks: &[Outlook], rows: &mut [LrcOutlook])
    requires room { length outlooks.now ≤ length rows.old }
    ensures { AreFirstRows (map outlook_row outlooks.now) (length outlooks.now) rows.old rows.new }
{
    for (i, outlook) in outlooks.iter().enumerate() {
        rows[i] = row_of(*outlook);
    }
}

/// The row of an outlook.
fn row_of(outlook: Outlook) -> LrcOutlook
    ensures { result ≡ outlook_row outlook }
{
    LrcOutlook::of(
        outlook.stripe,
        outlook.code,
        outlook.missing,
        outlook.newly_missing,
        outlook.is_harmed(),
        outlook.leases_ended,
        (outlook.before, outlook.after),
    )
}
