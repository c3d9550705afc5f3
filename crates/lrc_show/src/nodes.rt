//! The table of nodes, and what is read of each.

ghost use Rattle.std.specs.Prelude.{◌≡◌, ◌≤◌, ◌++◌, Some, length, map, count_by, string_bytes, IfOk, OnOk, IfErr};
ghost use Rattle.lrc_code.specs.declared.fault.Fault.TheVariants as fault;
ghost use Rattle.lrc_code.specs.Numbers.{same_node};
ghost use Rattle.lrc_topology.specs.Nodes.{node_at};
ghost use Rattle.lrc_book.specs.Books.{state_of};
ghost use Rattle.lrc_show.specs.Listed.{nodes_table};
ghost use Rattle.lrc_show.specs.Facts.{node_facts, node_line, facts_row};

use crate::leases::leases_of;
use lrc_book::{Book, Lease, Mode};
use lrc_code::{Fault, NodeNo};
use lrc_text::{mode_word, online_word};
use lrc_topology::NodeInfo;
use std::alloc::{AllocError, Global};

/// What is read of a node.
#[derive(Clone, Copy)]
pub(crate) struct NodeFacts {
    pub(crate) node: NodeInfo,
    pub(crate) mode: Mode,
    pub(crate) is_down: bool,
    pub(crate) is_upgrading: bool,
    pub(crate) is_online: bool,
    /// The number of held seats on the node.
    pub(crate) load: u32,
}

/// What is read of each node of a book, in the order of the file.
pub(crate) fn facts_of_nodes(alloc: Global, book: &Book) -> Result<Vec<NodeFacts>, Fault>
    ensures value { IfOk result (λ rows. rows.items ≡ map (node_facts (state_of book.now)) book.now.nodes) }
    ensures few { IfOk result (λ rows. length rows.items ≤ 512) }
    ensures err { IfErr result (λ e. e ≡ fault.OutOfMemory) }
{
    let mut rows = Vec::new(alloc);
    for node in book.topology().nodes() {
        rows.push(facts_of(book, node))?;
    }
    Ok(rows)
}

/// What is read of a node of the book.
pub(crate) fn facts_of(book: &Book, node: &NodeInfo) -> NodeFacts
    requires { node_at book.now.nodes node.now.number ≡ Some node.now }
    ensures { result ≡ node_facts (state_of book.now) node.now }
{
    let (mode, is_online) = book.mode(node.number).unwrap();
    let is_down = book.is_down(node.number).unwrap();
    let is_upgrading = match book.upgrading() {
        Some(domain) => domain == node.upgrade,
        None => false,
    };
    let load = book.load(node.number).unwrap();
    NodeFacts {
        node: *node,
        mode,
        is_down,
        is_upgrading,
        is_online,
        load,
    }
}

/// Adds the table of nodes.
pub(crate) fn push_nodes(out: &mut String, alloc: Global, book: &Book) -> Result<(), Fault>
    ensures text { OnOk result (string_bytes out.new ≡ string_bytes out.old ++ nodes_table book.now.nodes (state_of book.now)) }
    ensures err { IfErr result (λ e. e ≡ fault.OutOfMemory) }
{
    let leases = leases_of(alloc, book)?;
    let nodes = facts_of_nodes(alloc, book)?;
    out.push_str("node,fault,upgrade,mode,down,upgrading,online,homes,targets,load,slots\n")?;
    for node in nodes.as_slice() {
        push_node(out, alloc, book, leases.as_slice(), node)?;
    }
    Ok(())
}

/// Adds the row of a node, where these are all live leases.
fn push_node(
    out: &mut String,
    alloc: Global,
    book: &Book,
    leases: &[Lease],
    node: &NodeFacts,
) -> Result<(), Fault>
    ensures text { OnOk result (string_bytes out.new ≡ string_bytes out.old ++ facts_row (state_of book.now) leases.now node.now) }
    ensures err { IfErr result (λ e. e ≡ fault.OutOfMemory) }
{
    let number = node.node.number;
    let homes = book.homes_on(alloc, number)?.len();
    let targets = count_targets(leases, number);
    push_node_line(out, node, homes, targets)?;
    Ok(())
}

/// The number of leases with their target on a node.
pub(crate) fn count_targets(leases: &[Lease], node: NodeNo) -> usize
    ensures { result ≡ count_by (λ l. same_node node l.target.node) leases.now }
{
    leases
        .iter()
        .filter(|lease| lease.target.node == node)
        .count()
}

/// Adds the row of a node with this number of homes, and of targets of live leases.
fn push_node_line(
    out: &mut String,
    node: &NodeFacts,
    homes: usize,
    targets: usize,
) -> Result<(), AllocError>
    ensures { OnOk result (string_bytes out.new ≡ string_bytes out.old ++ node_line node.now homes targets) }
{
    let number = node.node.number.value;
    let fault = node.node.fault.value;
    let upgrade = node.node.upgrade.value;
    let mode = mode_word(node.mode);
    let is_down = online_word(node.is_down);
    let is_upgrading = online_word(node.is_upgrading);
    let is_online = online_word(node.is_online);
    let load = node.load;
    let slots = node.node.slots;
    write!(
        out,
        "{number},{fault},{upgrade},{mode},{is_down},{is_upgrading},{is_online},{homes},{targets},{load},{slots}\n"
    )
}
