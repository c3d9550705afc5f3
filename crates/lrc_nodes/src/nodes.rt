ghost use Rattle.std.specs.Prelude.{◌≡◌, ℕ, ◌<◌, ◌↔◌, ◌&&◌, ◌||◌, not, if◌then◌else◌, false, map, length, get_or, slice_set, option_map, IfOk, IfErr, IsSome, IsTrue, Some};
ghost use Rattle.std.specs.List.{All};
ghost use Rattle.lrc_bits.specs.Flags.{FindsFrom};
ghost use Rattle.lrc_code.specs.declared.numbers.NodeNo.{NodeNo as AnyNode};
ghost use Rattle.lrc_code.specs.declared.fault.Fault.TheVariants.{OutOfMemory};
ghost use Rattle.lrc_topology.specs.Nodes.{AreNodes, place_in};
ghost use Rattle.lrc_terms.specs.Modes.{is_gone};
ghost use Rattle.lrc_nodes.specs.Kept.{mode_by};
ghost use Rattle.lrc_nodes.specs.declared.node_state.NodeState.{NodeState as AnyState};
ghost use Rattle.lrc_nodes.specs.States.{first_state, is_node_offline, is_node_up, is_node_draining, numbers_in, state_at, down_in, up_in, online_in, draining_in, with_state, with_upgrading_in};

use crate::{NodeState, domains, flags};
use lrc_bits::BitSet;
use lrc_code::{Fault, NodeNo, UpgradeNo};
use lrc_terms::Mode;
use lrc_topology::{NodeIndex, NodeInfo, Topology};
use std::alloc::{AllocError, Global};
use std::marker::Model;

/// The nodes of a store in the order of the topology, with their states.
#[derive(Drop)]
pub struct Nodes {
    list: Vec<NodeInfo>,
    index: NodeIndex,
    /// The positions of the nodes that are gone. A node in none of the first two sets is active.
    gone: BitSet<8>,
    /// The positions of the nodes that are draining.
    draining: BitSet<8>,
    /// The positions of the nodes that are down.
    down: BitSet<8>,
    /// The positions of the nodes that are upgrading.
    upgrading: BitSet<8>,
    /// The positions of the offline nodes: those that are gone, down or upgrading. It follows from the other sets.
    offline: BitSet<8>,
    /// For each upgrade domain, the positions of its nodes.
    domains: Vec<BitSet<8>>,
    /// By node number, whether the store has the node and it is up. It follows from the sets of the gone and the down nodes.
    up: Vec<bool>,
}

impl Model for Nodes {
    ghost use Rattle.std.specs.Prelude.{List};
    ghost use Rattle.lrc_nodes.specs.declared.node_state.NodeState.{NodeState as AnyState};
    ghost use Rattle.lrc_nodes.specs.Kept.{states_from, AreKept};

    ghost Value = { List AnyState };

    ghost view = { λ t. states_from 0 t.list.items (record { gone = t.gone; draining = t.draining; down = t.down; upgrading = t.upgrading }) };

    ghost invariant = { λ t. AreKept t.list.items t.index (record { gone = t.gone; draining = t.draining; down = t.down; upgrading = t.upgrading }) t.offline t.domains.items t.up.items };
}

impl Nodes {
    /// Returns the nodes of the topology, all active, and none down or upgrading.
    ///
    /// # Errors
    ///
    /// Only `Fault::OutOfMemory`.
    pub fn new(alloc: Global, topology: &Topology) -> Result<Nodes, Fault>
        ensures value { IfOk result (λ t. t ≡ map first_state topology.now) }
        ensures err { IfErr result (λ e. e ≡ OutOfMemory) }
    {
        let list = nodes_of(alloc, topology)?;
        let domains = domains::positions_by_upgrade(alloc, &list)?;
        let up = flags::by_number(alloc, &list)?;
        Ok(Nodes {
            list,
            index: NodeIndex::new(alloc, topology)?,
            gone: BitSet::new(),
            draining: BitSet::new(),
            down: BitSet::new(),
            upgrading: BitSet::new(),
            offline: BitSet::new(),
            domains,
            up,
        })
    }

    /// Returns the number of nodes, from 1 to 512.
    pub fn len(&self) -> usize
        ensures { result ≡ length self.now }
    {
        self.list.len()
    }

    /// Returns the node at a position in the list, with its state.
    pub fn at(&self, position: usize) -> NodeState
        requires { position < length self.now }
        ensures { (d : AnyState) → result ≡ get_or self.now position d }
    {
        let node = self.list[position];
        let is_gone = self.gone.contains(position);
        let is_draining = self.draining.contains(position);
        let is_down = self.down.contains(position);
        let is_upgrading = self.upgrading.contains(position);
        NodeState {
            node,
            mode: mode_by(is_gone, is_draining),
            is_down,
            is_upgrading,
        }
    }

    /// Returns the node at a position in the list.
    pub fn node_at(&self, position: usize) -> NodeInfo
        requires { position < length self.now }
        ensures { (d : AnyState) → result ≡ (get_or self.now position d).node }
    {
        self.list[position]
    }

    /// Reports whether the node at a position in the list is offline.
    pub fn is_offline_at(&self, position: usize) -> bool
        requires { position < length self.now }
        ensures { (d : AnyState) → result ≡ is_node_offline (get_or self.now position d) }
    {
        self.offline.contains(position)
    }

    /// Reports whether the node at a position in the list is up: not gone and not down.
    pub fn is_up_at(&self, position: usize) -> bool
        requires { position < length self.now }
        ensures { (d : AnyState) → result ≡ is_node_up (get_or self.now position d) }
    {
        let state = self.at(position);
        !state.mode.is_gone() && !state.is_down
    }

    /// Reports whether the node at a position in the list is draining.
    pub fn is_draining_at(&self, position: usize) -> bool
        requires { position < length self.now }
        ensures { (d : AnyState) → result ≡ is_node_draining (get_or self.now position d) }
    {
        self.draining.contains(position)
    }

    /// Returns the first position from this one on whose node is offline.
    pub fn first_offline_from(&self, position: usize) -> Option<usize>
        ensures { FindsFrom (map is_node_offline self.now) position result }
    {
        self.offline.first_from(position)
    }

    /// Reports whether no node is offline.
    pub fn are_all_online(&self) -> bool
        ensures { IsTrue result ↔ All (λ x. is_node_offline x ≡ false) self.now }
    {
        self.offline.is_empty()
    }

    /// Reports whether no node is draining.
    pub fn are_none_draining(&self) -> bool
        ensures { IsTrue result ↔ All (λ x. is_node_draining x ≡ false) self.now }
    {
        self.draining.is_empty()
    }

    /// Returns the position of the node with a number, if there is one.
    pub fn position(&self, number: NodeNo) -> Option<usize>
        ensures { result ≡ place_in (numbers_in self.now) number }
    {
        self.index.place(number)
    }

    /// Returns the position of the node with a number that exists.
    pub fn position_of(&self, number: NodeNo) -> usize
        requires { IsSome (state_at self.now number) }
        ensures { place_in (numbers_in self.now) number ≡ Some result }
    {
        self.index.place_of(number)
    }

    /// Returns the node with a number, if there is one.
    pub fn node(&self, number: NodeNo) -> Option<NodeInfo>
        ensures { result ≡ option_map (λ x. x.node) (state_at self.now number) }
    {
        let position = self.position(number)?;
        Some(self.list[position])
    }

    /// Returns a flag for each node number, 65,536 in all: whether there is a node with the number and it is up.
    pub fn up(&self) -> &[bool]
        ensures long { length result.now ≡ 65536 }
        ensures each { (n : AnyNode) → get_or result.now n.value false ≡ up_in self.now n }
    {
        &self.up
    }

    /// Reports whether the node with a number is up: neither gone nor down; `false` if there is none.
    pub fn is_up(&self, number: NodeNo) -> bool
        ensures { result ≡ up_in self.now number }
    {
        self.up[usize::from(number.value)]
    }

    /// Reports whether the node with a number is online; `false` if there is none.
    pub fn is_online(&self, number: NodeNo) -> bool
        ensures { result ≡ online_in self.now number }
    {
        self.is_up(number) && !self.upgrading.contains(self.position_of(number))
    }

    /// Reports whether the node with a number is draining; `false` if there is none.
    pub fn is_draining(&self, number: NodeNo) -> bool
        ensures { result ≡ draining_in self.now number }
    {
        match self.position(number) {
            Some(position) => self.draining.contains(position),
            None => false,
        }
    }

    /// Returns the mode of the node with a number, if there is one.
    pub fn mode(&self, number: NodeNo) -> Option<Mode>
        ensures { result ≡ option_map (λ x. x.mode) (state_at self.now number) }
    {
        let position = self.position(number)?;
        Some(self.at(position).mode)
    }

    /// Reports whether the node with a number is down; `false` if there is none.
    pub fn is_down(&self, number: NodeNo) -> bool
        ensures { result ≡ down_in self.now number }
    {
        match self.position(number) {
            Some(position) => self.at(position).is_down,
            None => false,
        }
    }

    /// Sets the mode of a node, and whether it is down.
    pub fn set_state(&mut self, number: NodeNo, mode: Mode, is_down: bool)
        requires { IsSome (state_at self.old number) }
        ensures { self.new ≡ with_state self.old number mode is_down }
    {
        let position = self.position_of(number);
        let is_upgrading = self.upgrading.contains(position);
        mark(&mut self.gone, position, mode.is_gone());
        mark(&mut self.draining, position, mode.is_draining());
        mark(&mut self.down, position, is_down);
        let is_offline = is_offline(mode, is_down, is_upgrading);
        mark(&mut self.offline, position, is_offline);
        self.up[usize::from(number.value)] = is_up(mode, is_down);
    }

    /// Sets whether the nodes of an upgrade domain are upgrading.
    pub fn set_upgrading_in(&mut self, domain: UpgradeNo, is_upgrading: bool)
        ensures { self.new ≡ with_upgrading_in self.old domain is_upgrading }
    {
        let positions = &self.domains[domain.value as usize];
        mark_all(&mut self.upgrading, positions, is_upgrading);
        mark_all(&mut self.offline, positions, is_upgrading);
        self.offline.insert_all(&self.gone);
        self.offline.insert_all(&self.down);
    }
}

/// Returns the nodes of the topology, in its order.
fn nodes_of(alloc: Global, topology: &Topology) -> Result<Vec<NodeInfo>, AllocError>
    ensures value { IfOk result (λ v. v.items ≡ topology.now) }
    ensures known { AreNodes topology.now }
{
    topology.nodes().map(|node| *node).collect(alloc)
}

/// Returns the mode of a node that is gone or not, and draining or not.
fn mode_by(is_gone: bool, is_draining: bool) -> Mode
    ensures { result ≡ mode_by is_gone is_draining }
{
    if is_gone {
        Mode::Gone
    } else if is_draining {
        Mode::Draining
    } else {
        Mode::Active
    }
}

/// Reports whether a node with this state is up.
fn is_up(mode: Mode, is_down: bool) -> bool
    ensures { result ≡ (not (is_gone mode) && not is_down) }
{
    !mode.is_gone() && !is_down
}

/// Reports whether a node with this state is offline.
fn is_offline(mode: Mode, is_down: bool, is_upgrading: bool) -> bool
    ensures { result ≡ (is_gone mode || (is_down || is_upgrading)) }
{
    mode.is_gone() || is_down || is_upgrading
}

/// Adds a number to a set or removes it.
fn mark(set: &mut BitSet<8>, number: usize, is_in: bool)
    requires { number < length set.old }
    ensures { set.new ≡ slice_set set.old number is_in }
{
    if is_in {
        set.insert(number);
    } else {
        set.remove(number);
    }
}

/// Adds all numbers of another set to a set or removes them.
fn mark_all(set: &mut BitSet<8>, numbers: &BitSet<8>, are_in: bool)
    ensures same { length set.new ≡ length set.old }
    ensures each { (k : ℕ) → get_or set.new k false ≡ (if get_or numbers.now k false then are_in else get_or set.old k false) }
{
    if are_in {
        set.insert_all(numbers);
    } else {
        set.remove_all(numbers);
    }
}
