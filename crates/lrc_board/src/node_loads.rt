ghost use Rattle.std.specs.Prelude.{◌≡◌, [], map, replicate, position, IfOk};
ghost use Rattle.lrc_code.specs.Numbers.{same_node};
ghost use Rattle.lrc_book.specs.Books.{state_of};
ghost use Rattle.lrc_rules.specs.Boards.{loads_of, loads_after, load_in};

use lrc_book::Book;
use lrc_code::NodeNo;
use lrc_topology::Topology;
use std::alloc::{AllocError, Global};
use std::marker::Model;

/// The load of each node, in file order.
#[derive(Drop)]
pub(crate) struct NodeLoads {
    /// The nodes. They never change.
    numbers: Vec<NodeNo>,
    /// The load of each, as a book lists them.
    loads: Vec<u16>,
}

impl Model for NodeLoads {
    ghost use Rattle.std.specs.Prelude.{◌≡◌, length, zip};
    ghost use Rattle.lrc_rules.specs.Boards.{Loads};

    ghost Value = { Loads };

    ghost view = { λ l. zip l.numbers.items l.loads.items };

    ghost invariant = { λ l. length l.numbers.items ≡ length l.loads.items };
}

impl NodeLoads {
    /// Makes the loads of the nodes in an empty store.
    pub(crate) fn new(alloc: Global, topology: &Topology) -> Result<NodeLoads, AllocError>
        ensures { IfOk result (λ l. l ≡ loads_after topology.now []) }
    {
        let numbers = numbers(alloc, topology)?;
        let loads = zeros(alloc, topology.len())?;
        Ok(NodeLoads { numbers, loads })
    }

    /// Makes the loads of no nodes.
    pub(crate) fn none(alloc: Global) -> NodeLoads {
        NodeLoads {
            numbers: Vec::new(alloc),
            loads: Vec::new(alloc),
        }
    }

    /// Returns the load of a node, or `None` if there is no such node.
    pub(crate) fn load_of(&self, node: NodeNo) -> Option<u32>
        ensures { result ≡ load_in self.now node }
    {
        let position = position_of(&self.numbers, node)?;
        Some(self.loads[position] as u32)
    }

    /// Copies the loads from a book over these nodes.
    pub(crate) fn copy_from(&mut self, book: &Book)
        requires { map (λ row. row.0) self.old ≡ map (λ m. m.number) book.now.nodes }
        ensures { self.new ≡ loads_of book.now.nodes (state_of book.now) }
    {
        self.loads.copy_from_slice(book.loads());
    }
}

/// Returns the numbers of the nodes.
fn numbers(alloc: Global, topology: &Topology) -> Result<Vec<NodeNo>, AllocError>
    ensures { IfOk result (λ v. v.items ≡ map (λ m. m.number) topology.now) }
{
    topology.nodes().map(|node| node.number).collect(alloc)
}

/// Returns the position of a number, or `None` if it is not there.
fn position_of(numbers: &[NodeNo], number: NodeNo) -> Option<usize>
    ensures { result ≡ position (same_node number) numbers.now }
{
    numbers.iter().position(|other| number == *other)
}

/// Returns `count` zeros.
fn zeros(alloc: Global, count: usize) -> Result<Vec<u16>, AllocError>
    ensures { IfOk result (λ v. v.items ≡ replicate count 0) }
{
    vec![in alloc; 0u16; count]
}
