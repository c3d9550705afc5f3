ghost use Rattle.std.specs.Prelude.{◌≡◌, if◌then◌else◌, nat_eq, ◌&&◌, ◌||◌, not, true, false, None, Some, is_some, option_map, IfOk, IfErr, IfSome, IfNone, IsTrue, ◌<◌, length, get_or, slice_set};
ghost use Rattle.std.specs.List.{All, list_any};
ghost use Rattle.lrc_code.specs.Codes.{fragment_count};
ghost use Rattle.lrc_code.specs.Numbers.{same_stripe, same_node, same_upgrade};
ghost use Rattle.lrc_code.specs.declared.numbers.NodeNo.{NodeNo as AnyNode};
ghost use Rattle.lrc_code.specs.declared.numbers.StripeNo.{StripeNo as AnyStripe};
ghost use Rattle.lrc_code.specs.declared.fault.Fault.TheVariants.{OutOfMemory};
ghost use Rattle.lrc_topology.specs.declared.NodeInfo.{NodeInfo as AnyInfo};
ghost use Rattle.lrc_topology.specs.Nodes.{node_at};
ghost use Rattle.lrc_terms.specs.Levels.{Homes as AnyHomes};
ghost use Rattle.lrc_homes.specs.Domains.{AreDomainsOf};
ghost use Rattle.lrc_rows.specs.NodeStates.{has_node, states_in, first_states, IsPositionOf};
ghost use Rattle.lrc_nodes.specs.States.{state_at, down_in, up_in, with_state, with_upgrading_in};
ghost use Rattle.lrc_ranks.specs.Sets.{FindsNext, has};
ghost use Rattle.lrc_homes.specs.Homes.{seated_homes, sits_on};
ghost use Rattle.lrc_rows.specs.Listed.{rows_in};
ghost use Rattle.lrc_rows.specs.Kept.{is_row_on, AreWith};
ghost use Rattle.lrc_homes.specs.Masks.{AreLosses};

mod offline;

use crate::row::Row;
use crate::rows::Rows;
use lrc_code::{Code, Fault, Fragment, LossMask, NodeNo, StripeNo, UpgradeNo};
use lrc_homes::{HomeDomains, Losses, masks};
use lrc_nodes::Nodes;
use lrc_ranks::StripeSet;
use lrc_terms::Mode;
use lrc_topology::{NodeInfo, Seat, Topology};
use std::alloc::{AllocError, Global};
use std::marker::Model;

/// The nodes of a store with their states, and the stripes with a home on each.
#[derive(Drop)]
pub struct NodeTable {
    nodes: Nodes,
    /// The stripes with a home on each node, in the order of the nodes.
    stripes: Vec<StripeSet>,
}

impl Model for NodeTable {
    ghost use Rattle.lrc_rows.specs.NodeStates.{NodeLists, AreNodes};

    ghost Value = { NodeLists };

    ghost view = { λ t. record { list = t.nodes; stripes = t.stripes.items } };

    ghost invariant = { λ t. AreNodes t.nodes t.stripes.items };
}

impl NodeTable {
    /// The nodes of the topology. All are active, none is down or upgrading, and there are no stripes.
    pub fn new(alloc: Global, topology: &Topology) -> Result<NodeTable, Fault>
        ensures value { IfOk result (λ t. states_in t ≡ first_states topology.now) }
        ensures err { IfErr result (λ e. e ≡ OutOfMemory) }
    {
        Ok(NodeTable {
            nodes: Nodes::new(alloc, topology)?,
            stripes: empty_sets(alloc, topology.len())?,
        })
    }

    /// The node with a number, if there is one.
    pub fn node(&self, number: NodeNo) -> Option<NodeInfo>
        ensures { result ≡ node_at (states_in self.now).nodes number }
    {
        self.nodes.node(number)
    }

    /// The number of nodes.
    pub(crate) fn len(&self) -> usize
        ensures { result ≡ length (states_in self.now).nodes }
    {
        self.nodes.len()
    }

    /// The node at a position in the list. There must be one.
    pub(crate) fn node_at(&self, position: usize) -> NodeInfo
        requires { position < length (states_in self.now).nodes }
        ensures { (d : AnyInfo) → result ≡ get_or (states_in self.now).nodes position d }
    {
        self.nodes.node_at(position)
    }

    /// Whether the node with a number is online; `false` if there is none.
    pub fn is_online(&self, number: NodeNo) -> bool
        ensures { result ≡ (states_in self.now).online number }
    {
        self.nodes.is_online(number)
    }

    /// Whether the node with a number is up, so neither gone nor down; `false` if there is none.
    pub fn is_up(&self, number: NodeNo) -> bool
        ensures { result ≡ (states_in self.now).up number }
    {
        self.nodes.is_up(number)
    }

    /// A flag for each node number: whether there is a node with the number and it is up.
    pub(crate) fn up(&self) -> &[bool]
        ensures long { length result.now ≡ 65536 }
        ensures each { (n : AnyNode) → get_or result.now n.value false ≡ (states_in self.now).up n }
    {
        self.nodes.up()
    }

    /// Whether the node with a number is draining; `false` if there is none.
    pub fn is_draining(&self, number: NodeNo) -> bool
        ensures { result ≡ (states_in self.now).draining number }
    {
        self.nodes.is_draining(number)
    }

    /// The mode of the node with a number, if there is one.
    pub fn mode(&self, number: NodeNo) -> Option<Mode>
        ensures { result ≡ option_map (λ x. x.mode) (state_at self.now.list number) }
    {
        self.nodes.mode(number)
    }

    /// Whether the node with a number is down; `false` if there is none.
    pub fn is_down(&self, number: NodeNo) -> bool
        ensures { result ≡ down_in self.now.list number }
    {
        self.nodes.is_down(number)
    }

    /// Sets the mode of a node, and whether it is down.
    pub fn set_state(&mut self, number: NodeNo, mode: Mode, is_down: bool)
        requires { IsTrue (has_node (states_in self.old).nodes number) }
        ensures { self.new ≡ record self.old { list = with_state self.old.list number mode is_down } }
    {
        self.nodes.set_state(number, mode, is_down);
    }

    /// Sets whether the nodes of an upgrade domain are upgrading.
    pub fn set_upgrading_in(&mut self, domain: UpgradeNo, is_upgrading: bool)
        ensures { self.new ≡ record self.old { list = with_upgrading_in self.old.list domain is_upgrading } }
    {
        self.nodes.set_upgrading_in(domain, is_upgrading);
    }

    /// Adds a stripe of the code with homes on these seats, one for each fragment, and stores
    /// their domains. The nodes must exist. Returns the losses of the stripe.
    pub fn enter(
        &mut self,
        code: Code,
        stripe: StripeNo,
        seats: &[Seat],
        domains: &mut HomeDomains,
    ) -> Losses
        requires length { length seats.now ≡ fragment_count code }
        requires nodes { All (λ seat. IsTrue (has_node (states_in self.old).nodes seat.node)) seats.now }
        ensures on { states_in self.new ≡ record (states_in self.old) { on = λ n s. (same_stripe stripe s && list_any (sits_on n) (seated_homes seats.now)) || (states_in self.old).on n s } }
        ensures code { result.code ≡ code }
        ensures losses { AreLosses code (states_in self.old).up (states_in self.old).draining (seated_homes seats.now) result }
        ensures domains { AreDomainsOf (states_in self.old).nodes (λ f. get_or (seated_homes seats.now) f None) domains.new }
    {
        for number in 0..code.fragments() {
            let fragment = Fragment { value: number };
            let seat = seats[number as usize];
            self.enter_one(stripe, fragment, seat.node, domains);
        }
        self.losses_of(code, seats)
    }

    /// The losses of a stripe of the code with homes on these seats: none if no node is offline or draining.
    fn losses_of(&self, code: Code, seats: &[Seat]) -> Losses
        requires length { length seats.now ≡ fragment_count code }
        requires nodes { All (λ seat. IsTrue (has_node (states_in self.now).nodes seat.node)) seats.now }
        ensures code { result.code ≡ code }
        ensures losses { AreLosses code (states_in self.now).up (states_in self.now).draining (seated_homes seats.now) result }
    {
        if self.are_plain() {
            return Losses::none(code);
        }
        self.losses_on(code, seats)
    }

    /// Whether no node is offline or draining.
    fn are_plain(&self) -> bool
        ensures { result ≡ true → (n : AnyNode) → IsTrue (has_node (states_in self.now).nodes n) → ((states_in self.now).up n ≡ true) × ((states_in self.now).draining n ≡ false) }
    {
        self.nodes.are_all_online() && self.nodes.are_none_draining()
    }

    /// The same, one fragment at a time.
    #[inline(never)] // with all nodes online and none draining it is not called
    fn losses_on(&self, code: Code, seats: &[Seat]) -> Losses
        requires { length seats.now ≡ fragment_count code }
        ensures code { result.code ≡ code }
        ensures losses { AreLosses code (states_in self.now).up (states_in self.now).draining (seated_homes seats.now) result }
    {
        let mut losses = Losses::none(code);
        for number in 0..code.fragments() {
            let fragment = Fragment { value: number };
            let node = seats[number as usize].node;
            losses.missing = masks::with_where(losses.missing, fragment, !self.is_up(node));
            losses.needs = masks::with_where(losses.needs, fragment, self.is_draining(node));
        }
        losses
    }

    /// Adds a stripe to the node of a fragment's home, and stores the domains of that node. Returns the node.
    fn enter_one(
        &mut self,
        stripe: StripeNo,
        fragment: Fragment,
        number: NodeNo,
        domains: &mut HomeDomains,
    ) -> NodeInfo
        requires { IsTrue (has_node (states_in self.old).nodes number) }
        ensures on { states_in self.new ≡ record (states_in self.old) { on = λ n s. (same_node number n && same_stripe stripe s) || (states_in self.old).on n s } }
        ensures node { Some result ≡ node_at (states_in self.old).nodes number }
        ensures faults { domains.new.faults ≡ slice_set domains.old.faults fragment.value result.fault.value }
        ensures upgrades { domains.new.upgrades ≡ slice_set domains.old.upgrades fragment.value result.upgrade.value }
    {
        let position = self.position_of(number);
        let set = &mut self.stripes[position];
        set.insert(stripe);
        let node = self.nodes.node_at(position);
        domains.put(fragment, &node);
        node
    }

    /// Removes a stripe from a node.
    fn remove(&mut self, number: NodeNo, stripe: StripeNo)
        ensures { states_in self.new ≡ record (states_in self.old) { on = λ n s. not (same_node number n && same_stripe stripe s) && (states_in self.old).on n s } }
    {
        if let Some(position) = self.position(number) {
            let set = &mut self.stripes[position];
            set.remove(stripe);
        }
    }

    /// Removes a stripe from the nodes of all its homes.
    pub fn leave(&mut self, stripe: StripeNo, row: &Row)
        ensures { states_in self.new ≡ record (states_in self.old) { on = λ n s. not (same_stripe stripe s && list_any (sits_on n) row.now.homes) && (states_in self.old).on n s } }
    {
        for fragment in Fragment::all() {
            if let Some(seat) = row.homes.home(fragment) {
                self.remove(seat.node, stripe);
            }
        }
    }

    /// Removes an existing stripe from the node of a former home, unless its row has another home there.
    pub fn unseat(&mut self, stripe: StripeNo, former: Option<Seat>, rows: &Rows)
        requires { IsTrue (is_some (rows_in rows.now.list stripe)) }
        ensures { states_in self.new ≡ record (states_in self.old) { on = λ n s. not (same_stripe stripe s && (sits_on n former && not (is_row_on n (rows_in rows.now.list stripe)))) && (states_in self.old).on n s } }
    {
        if let Some(seat) = former {
            if !rows.is_on(stripe, seat.node) {
                self.remove(seat.node, stripe);
            }
        }
    }

    /// Adds a stripe to the node of a fragment's new home, if it has one, and stores the domains
    /// of that node, which must exist. Returns the losses of the stripe with this home.
    pub fn seat(
        &mut self,
        stripe: StripeNo,
        fragment: Fragment,
        home: Option<Seat>,
        losses: Losses,
        domains: &mut HomeDomains,
    ) -> Losses
        requires { IfSome home (λ seat. IsTrue (has_node (states_in self.old).nodes seat.node)) }
        ensures on { states_in self.new ≡ record (states_in self.old) { on = λ n s. (same_stripe stripe s && sits_on n home) || (states_in self.old).on n s } }
        ensures losses { AreWith (states_in self.old) fragment.value home losses result }
        ensures domains { (homes : AnyHomes) → AreDomainsOf (states_in self.old).nodes homes domains.old → AreDomainsOf (states_in self.old).nodes (λ g. if nat_eq fragment.value g then home else homes g) domains.new }
    {
        match home {
            Some(seat) => {
                let position = self.position_of(seat.node);
                let is_up = self.nodes.is_up_at(position);
                let is_draining = self.nodes.is_draining_at(position);
                self.enter_one(stripe, fragment, seat.node, domains);
                losses.put(fragment, false, !is_up, is_draining)
            }
            None => losses.put(fragment, true, true, true),
        }
    }

    /// The stripes with a home on the node; `None` if there is no such node.
    pub fn stripes_on(&self, number: NodeNo) -> Option<&StripeSet>
        ensures set { IfSome result (λ set. has set.now ≡ (states_in self.now).on number) }
        ensures none { IfNone result ((s : AnyStripe) → (states_in self.now).on number s ≡ false) }
    {
        let position = self.position(number)?;
        Some(&self.stripes[position])
    }

    /// The first stripe from this number on with a home on the node.
    pub fn first_on(&self, number: NodeNo, from: usize) -> Option<StripeNo>
        ensures { FindsNext ((states_in self.now).on number) from result }
    {
        let position = self.position(number)?;
        self.stripes[position].first_from(from)
    }

    /// Adds the stripes with a home on the node to a set.
    fn join(&self, number: NodeNo, set: &mut StripeSet)
        ensures { has set.new ≡ λ s. has set.old s || (states_in self.now).on number s }
    {
        if let Some(position) = self.position(number) {
            set.insert_all(&self.stripes[position]);
        }
    }

    /// The position of the node with a number, if there is one.
    fn position(&self, number: NodeNo) -> Option<usize>
        ensures { IsPositionOf self.now number result }
    {
        self.nodes.position(number)
    }

    /// The position of the node with a number that exists.
    fn position_of(&self, number: NodeNo) -> usize
        requires { IsTrue (has_node (states_in self.now).nodes number) }
        ensures { IsPositionOf self.now number (Some result) }
    {
        self.nodes.position_of(number)
    }
}

/// `count` empty sets.
fn empty_sets(alloc: Global, count: usize) -> Result<Vec<StripeSet>, AllocError>
    ensures long { IfOk result (λ v. length v.items ≡ count) }
    ensures empty { IfOk result (λ v. All (λ set. has set ≡ λ s. false) v.items) }
{
    let mut sets = Vec::with_capacity(alloc, count)?;
    for _ in 0..count {
        sets.push(StripeSet::new())?;
    }
    Ok(sets)
}
