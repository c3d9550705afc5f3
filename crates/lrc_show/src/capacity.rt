//! The table of capacity.

ghost use Rattle.std.specs.Prelude.{◌≡◌, ◌≤◌, ◌++◌, Some, None, length, map, string_bytes, IfOk, OnOk, IfErr};
ghost use Rattle.lrc_code.specs.declared.fault.Fault.TheVariants as fault;
ghost use Rattle.lrc_book.specs.Books.{state_of};
ghost use Rattle.lrc_capacity.specs.Capacities.{room_of};
ghost use Rattle.lrc_show.specs.CapacityRows.{capacity_for, capacity_line, capacity_table};
ghost use Rattle.lrc_show.specs.Facts.{room_in};

use crate::nodes::{NodeFacts, facts_of_nodes};
use lrc_book::Book;
use lrc_capacity::{Capacity, NodeRoom, Shortage, capacity_of};
use lrc_code::{Code, Fault, STRIPES};
use std::alloc::{AllocError, Global};

/// The heads of the columns.
const HEADS: &str =
    "code,stripes,fragment,not_active,offline,full,fault_domain,upgrade_domain,free_slots\n";

/// Adds the table of capacity.
pub(crate) fn push_capacities(out: &mut String, alloc: Global, book: &Book) -> Result<(), Fault>
    ensures text { OnOk result (string_bytes out.new ≡ string_bytes out.old
        ++ capacity_table book.now.nodes (state_of book.now)) }
    ensures err { IfErr result (λ e. e ≡ fault.OutOfMemory) }
{
    let wide = capacity_for(alloc, book, Code::Wide)?;
    let narrow = capacity_for(alloc, book, Code::Narrow)?;
    out.push_str(HEADS)?;
    push_capacity(out, Code::Wide, wide)?;
    push_capacity(out, Code::Narrow, narrow)?;
    Ok(())
}

/// How many more stripes of a code the rule places on a book.
fn capacity_for(alloc: Global, book: &Book, code: Code) -> Result<Capacity, Fault>
    ensures value { IfOk result (λ c. c ≡ capacity_for book.now.nodes (state_of book.now) code) }
    ensures err { IfErr result (λ e. e ≡ fault.OutOfMemory) }
{
    book.history(); // so that its contract tells that the seats are in order
    let mut rooms = rooms_of(alloc, book)?;
    let unused = STRIPES - book.stripes(alloc)?.len();
    Ok(capacity_of(alloc, rooms.as_mut_slice(), code, unused)?)
}

/// What the choice of a seat reads of each node of a book, in the order of the file.
fn rooms_of(alloc: Global, book: &Book) -> Result<Vec<NodeRoom>, Fault>
    ensures value { IfOk result (λ rooms. rooms.items ≡ map (room_of (state_of book.now)) book.now.nodes) }
    ensures few { IfOk result (λ rooms. length rooms.items ≤ 512) }
    ensures err { IfErr result (λ e. e ≡ fault.OutOfMemory) }
{
    let nodes = facts_of_nodes(alloc, book)?;
    let mut rooms = Vec::new(alloc);
    for node in nodes.as_slice() {
        rooms.push(room_in(node))?;
    }
    Ok(rooms)
}

fn room_in(node: &NodeFacts) -> NodeRoom
    ensures { result ≡ room_in node.now }
{
    NodeRoom {
        node: node.node,
        is_active: node.mode.is_active(),
        is_online: node.is_online,
        load: node.load,
    }
}

/// Adds the row of a code.
fn push_capacity(out: &mut String, code: Code, capacity: Capacity) -> Result<(), AllocError>
    ensures { OnOk result (string_bytes out.new ≡ string_bytes out.old
        ++ capacity_line code capacity.stripes capacity.shortage capacity.free_slots) }
{
    match capacity.shortage {
        Some(shortage) => push_short(out, code, capacity.stripes, &shortage, capacity.free_slots),
        None => push_unrefused(out, code, capacity.stripes, capacity.free_slots),
    }
}

/// Adds the row of a code of which a stripe is refused in the end.
fn push_short(
    out: &mut String,
    code: Code,
    stripes: usize,
    shortage: &Shortage,
    free: u64,
) -> Result<(), AllocError>
    ensures { OnOk result (string_bytes out.new ≡ string_bytes out.old ++ capacity_line code stripes (Some shortage.now) free) }
{
    let name = code.name();
    let fragment = shortage.fragment.value;
    let not_active = shortage.not_active;
    let offline = shortage.offline;
    let full = shortage.full;
    let fault = shortage.fault_domain;
    let upgrade = shortage.upgrade_domain;
    write!(
        out,
        "{name},{stripes},{fragment},{not_active},{offline},{full},{fault},{upgrade},{free}\n"
    )
}

/// Adds the row of a code of which no stripe is refused.
fn push_unrefused(out: &mut String, code: Code, stripes: usize, free: u64) -> Result<(), AllocError>
    ensures { OnOk result (string_bytes out.new ≡ string_bytes out.old ++ capacity_line code stripes None free) }
{
    let name = code.name();
    write!(out, "{name},{stripes},,,,,,,{free}\n")
}
