ghost use Rattle.std.specs.Prelude.{◌≡◌, ℕ, [], length, map, replicate, get_or, slice_set, false, if◌then◌else◌, None, IfOk};
ghost use Rattle.lrc_topology.specs.Nodes.{nodes_in};
ghost use Rattle.lrc_rules.specs.States.{opening, online_at};
ghost use Rattle.lrc_book.specs.Books.{state_of};
ghost use Rattle.lrc_rules.specs.Boards.{loads_after, load_in};
ghost use Rattle.lrc_board.specs.Views.{BoardView, homes_row, rows_of, online_of};
ghost use Rattle.lrc_board.specs.Looks.{homes_in, level_on};
ghost use Rattle.lrc_board.specs.Refreshed.{both_changes, is_row_on, rows_refreshed, rows_anew, rows_anew_on, online_refreshed, online_anew, put_flags, loads_refreshed, IsWhole, renewed};

use crate::changes::{ChangedNodes, ChangedStripes, Changes};
use crate::line::LogPrefix;
use crate::node_loads::NodeLoads;
use crate::stripe_homes::{StripeHomes, homes_in};
use left_right::Absorb;
use lrc_book::{Book, Level};
use lrc_code::{NodeNo, STRIPES, StripeNo, UpgradeNo};
use lrc_topology::Topology;
use std::alloc::{AllocError, Global};
use std::marker::Model;

/// All stripe numbers are below it.
pub(crate) const STRIPE_BOUND: u16 = STRIPES as u16;

/// The number of node numbers.
const NODE_NUMBERS: usize = 65_536;

/// One copy of the published view: what the level of each stripe follows from, the load of each node, and the entries that they
/// follow from. A look computes the levels that it asks for.
#[derive(Drop)]
pub struct Board {
    /// By stripe number.
    rows: Vec<Option<StripeHomes>>,
    /// By node number, whether the store has the node and it is online.
    online: Vec<bool>,
    loads: NodeLoads,
    count: u64,
    prefix: LogPrefix,
}

impl Model for Board {
    ghost use Rattle.lrc_board.specs.Views.{BoardView};

    ghost Value = { BoardView };

    ghost view = { λ b. record { rows = b.rows.items; online = b.online.items; loads = b.loads; count = b.count; book = b.prefix.book; lines = b.prefix.log } };
}

impl Board {
    /// Makes the board of a book without entries.
    pub(crate) fn new(
        alloc: Global,
        topology: &Topology,
        prefix: LogPrefix,
    ) -> Result<Board, AllocError>
        ensures { IfOk result (λ b. b ≡ record {
          rows = rows_of opening;
          online = online_of topology.now opening;
          loads = loads_after topology.now [];
          count = 0;
          book = prefix.book;
          lines = prefix.log;
        }) }
    {
        Ok(Board {
            rows: no_rows(alloc, STRIPES)?,
            online: first_online(alloc, topology)?,
            loads: NodeLoads::new(alloc, topology)?,
            count: 0,
            prefix,
        })
    }

    /// Makes an empty board, which is replaced before a viewer can see it.
    pub(crate) fn blank(alloc: Global, prefix: LogPrefix) -> Board {
        Board {
            rows: Vec::new(alloc),
            online: Vec::new(alloc),
            loads: NodeLoads::none(alloc),
            count: 0,
            prefix,
        }
    }

    /// Returns the level of a stripe, or `None` if there is no such stripe.
    pub(crate) fn level_of(&self, stripe: StripeNo) -> Option<Level>
        ensures { result ≡ level_on self.now.rows self.now.online stripe }
    {
        match homes_in(&self.rows, stripe) {
            Some(row) => Some(row.level(&self.online)),
            None => None,
        }
    }

    /// Returns the number of seats on a node, or `None` if the store has no such node.
    pub(crate) fn load_of(&self, node: NodeNo) -> Option<u32>
        ensures { result ≡ load_in self.now.loads node }
    {
        self.loads.load_of(node)
    }

    /// Returns the number of entries that the board follows from.
    pub(crate) fn count(&self) -> u64
        ensures { result ≡ self.now.count }
    {
        self.count
    }

    /// Returns the log prefix that the board follows from.
    pub(crate) fn prefix(&self) -> LogPrefix
        ensures { (result.book ≡ self.now.book) × (result.log ≡ self.now.lines) }
    {
        self.prefix.again()
    }

    /// Updates the board from a book with `count` entries: what the last batch and this one may have changed of the
    /// stripes, the nodes and the loads.
    pub(crate) fn refresh(
        &mut self,
        book: &Book,
        last: &Changes,
        now: &Changes,
        count: u64,
        prefix: &LogPrefix,
    )
        requires log { prefix.now.book ≡ self.old.book }
        requires whole { IsWhole book.now.nodes self.old }
        ensures { self.new ≡ renewed self.old book.now (both_changes last.now now.now) count prefix.now.log }
    {
        refresh_rows(&mut self.rows, book, &last.stripes);
        refresh_rows(&mut self.rows, book, &now.stripes);
        refresh_online(&mut self.online, book, &last.nodes);
        refresh_online(&mut self.online, book, &now.nodes);
        refresh_loads(&mut self.loads, book, last.loads || now.loads);
        self.count = count;
        self.prefix = prefix.again();
    }
}

/// Returns `count` rows of an empty store, in which there is no stripe.
fn no_rows(alloc: Global, count: usize) -> Result<Vec<Option<StripeHomes>>, AllocError>
    ensures { IfOk result (λ v. v.items ≡ replicate count None) }
{
    let mut rows = Vec::with_capacity(alloc, count)?;
    for _ in 0..count {
        rows.push(None)?;
    }
    Ok(rows)
}

/// Returns, by node number, which nodes of an empty store are online: all that it has.
fn first_online(alloc: Global, topology: &Topology) -> Result<Vec<bool>, AllocError>
    ensures { IfOk result (λ v. v.items ≡ online_of topology.now opening) }
{
    let mut online = none_online(alloc, NODE_NUMBERS)?;
    mark_all(&mut online, topology);
    Ok(online)
}

/// Returns `count` node numbers, none of which is online.
fn none_online(alloc: Global, count: usize) -> Result<Vec<bool>, AllocError>
    ensures long { IfOk result (λ v. length v.items ≡ count) }
    ensures none { IfOk result (λ v. (k : ℕ) → get_or v.items k false ≡ false) }
{
    let mut online = Vec::new(alloc);
    online.resize(count, false)?;
    Ok(online)
}

/// Marks all nodes of an empty store as online, where none is marked.
fn mark_all(online: &mut [bool], topology: &Topology)
    requires long { length online.old ≡ 65536 }
    requires none { (k : ℕ) → get_or online.old k false ≡ false }
    ensures { online.new ≡ online_of topology.now opening }
{
    for node in topology.nodes() {
        online[usize::from(node.number.get())] = true;
    }
}

/// Copies the rows that may have changed from a book.
fn refresh_rows(rows: &mut [Option<StripeHomes>], book: &Book, changes: &[ChangedStripes])
    requires { length rows.old ≡ 4096 }
    ensures value { rows.new ≡ rows_refreshed (state_of book.now) changes.now rows.old }
    ensures whole { length rows.new ≡ 4096 }
{
    for changed in changes.iter() {
        refresh_changed(rows, book, *changed);
    }
}

/// Copies the rows that one change may have changed from a book.
fn refresh_changed(rows: &mut [Option<StripeHomes>], book: &Book, changed: ChangedStripes)
    requires { length rows.old ≡ 4096 }
    ensures value { rows.new ≡ rows_anew (state_of book.now) changed rows.old }
    ensures whole { length rows.new ≡ 4096 }
{
    match changed {
        ChangedStripes::Stripe(stripe) => {
            rows[usize::from(stripe.get())] = StripeHomes::of(book, stripe)
        }
        ChangedStripes::AllOn(node) => refresh_rows_on(rows, book, node),
    }
}

/// Copies the rows that have a home on the node from a book.
fn refresh_rows_on(rows: &mut [Option<StripeHomes>], book: &Book, node: NodeNo)
    requires { length rows.old ≡ 4096 }
    ensures value { rows.new ≡ rows_anew_on (state_of book.now) node rows.old }
    ensures whole { length rows.new ≡ 4096 }
{
    for number in 0..STRIPE_BOUND {
        let stripe = StripeNo::new(number).unwrap();
        refresh_row_on(rows, book, stripe, node);
    }
}

/// Copies the row of a stripe from a book if it has a home on the node.
fn refresh_row_on(rows: &mut [Option<StripeHomes>], book: &Book, stripe: StripeNo, node: NodeNo)
    requires { length rows.old ≡ 4096 }
    ensures value { rows.new ≡ (if is_row_on node (homes_in rows.old stripe) then slice_set rows.old stripe.value (homes_row (state_of book.now) stripe) else rows.old) }
    ensures whole { length rows.new ≡ 4096 }
{
    if is_on(rows, stripe, node) {
        rows[usize::from(stripe.get())] = StripeHomes::of(book, stripe);
    }
}

/// Reports whether a stripe has a home on the node.
fn is_on(rows: &[Option<StripeHomes>], stripe: StripeNo, node: NodeNo) -> bool
    ensures { result ≡ is_row_on node (homes_in rows.now stripe) }
{
    match homes_in(rows, stripe) {
        Some(row) => row.is_on(node),
        None => false,
    }
}

/// Copies from a book which of the nodes are online that may have changed.
fn refresh_online(online: &mut [bool], book: &Book, changes: &[ChangedNodes])
    requires { length online.old ≡ 65536 }
    ensures value { online.new ≡ online_refreshed book.now.nodes (state_of book.now) changes.now online.old }
    ensures whole { length online.new ≡ 65536 }
{
    for changed in changes.iter() {
        refresh_nodes(online, book, *changed);
    }
}

/// Copies from a book which of the nodes are online that one change may have changed.
fn refresh_nodes(online: &mut [bool], book: &Book, changed: ChangedNodes)
    requires { length online.old ≡ 65536 }
    ensures value { online.new ≡ online_anew book.now.nodes (state_of book.now) changed online.old }
    ensures whole { length online.new ≡ 65536 }
{
    match changed {
        ChangedNodes::Node(node) => refresh_node(online, book, node),
        ChangedNodes::AllIn(domain) => refresh_domain(online, book, domain),
    }
}

/// Copies all loads from a book, if any may have changed.
fn refresh_loads(loads: &mut NodeLoads, book: &Book, are_changed: bool)
    requires { map (λ row. row.0) loads.old ≡ map (λ m. m.number) book.now.nodes }
    ensures { loads.new ≡ loads_refreshed book.now.nodes (state_of book.now) are_changed loads.old }
{
    if are_changed {
        loads.copy_from(book);
    }
}

/// Copies from a book which nodes of an upgrade domain are online.
fn refresh_domain(online: &mut [bool], book: &Book, domain: UpgradeNo)
    requires { length online.old ≡ 65536 }
    ensures value { online.new ≡ put_flags (online_at book.now.nodes (state_of book.now)) online.old (nodes_in book.now.nodes domain) }
    ensures whole { length online.new ≡ 65536 }
{
    let nodes = book.topology().nodes_in(domain);
    for node in nodes {
        refresh_node(online, book, node.number);
    }
}

/// Copies from a book whether a node is online.
fn refresh_node(online: &mut [bool], book: &Book, node: NodeNo)
    requires { length online.old ≡ 65536 }
    ensures value { online.new ≡ slice_set online.old node.value (online_at book.now.nodes (state_of book.now) node) }
    ensures whole { length online.new ≡ 65536 }
{
    online[usize::from(node.get())] = is_online(book, node);
}

/// Reports whether the node of a book is online; `false` if there is no such node.
fn is_online(book: &Book, node: NodeNo) -> bool
    ensures { result ≡ online_at book.now.nodes (state_of book.now) node }
{
    match book.mode(node) {
        Some((_, online)) => online,
        None => false,
    }
}

/// An operation of `left_right` that changes nothing. The publisher changes the copies itself, so no operation is ever queued.
#[derive(Clone, Copy)]
pub struct NoOperation;

impl Absorb<NoOperation> for Board {
    type State = ();

    ghost state = { λ _. tt };

    ghost applied = { λ _ _. tt };

    ghost never_fails = { Unit {0} };

    fn absorb_first(&mut self, _operation: &NoOperation, _other: &Board) -> Result<(), AllocError> {
        Ok(())
    }
}
