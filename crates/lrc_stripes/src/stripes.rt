ghost use Rattle.std.specs.Prelude.{◌≡◌, ◌≤◌, length, IsTrue, IsFalse, IfOk, IfErr, IfSome, OnErr, OnOk, IsOk, None, Some};
ghost use Rattle.std.specs.List.{All};
ghost use Rattle.lrc_code.specs.declared.codes.Code.TheVariants.{Wide, Narrow};
ghost use Rattle.lrc_code.specs.declared.fault.Fault.TheVariants.{OutOfMemory};
ghost use Rattle.lrc_code.specs.Codes.{fragment_count, has_fragment};
ghost use Rattle.lrc_nodes.specs.States.{infos_in};
ghost use Rattle.lrc_stripes.specs.Stored.{empty, with_stripe, with_homes, without_stripe, with_home, with_state, with_upgrading_in, has_slot, HasNoHome};
ghost use Rattle.lrc_rows.specs.NodeStates.{has_node};
ghost use Rattle.lrc_stripes.specs.Tables.{stored_in};

mod queries;

use crate::verdicts::Verdicts;
use crate::{HomeDomains, Seat, upgrades};
use lrc_code::{Code, Fault, Fragment, NodeNo, StripeNo, UpgradeNo};
use lrc_rows::{NodeTable, Row, Rows};
use lrc_terms::Mode;
use lrc_topology::Topology;
use std::alloc::Global;
use std::marker::Model;

/// The stripes of a store with their codes and homes, and the nodes with their states.
#[derive(Drop)]
pub struct Stripes {
    node_table: NodeTable,
    rows: Rows,
    /// What is known of upgrades. Contracts do not speak of it.
    verdicts: Verdicts,
}

impl Model for Stripes {
    ghost use Rattle.lrc_stripes.specs.Tables.{Table};
    ghost use Rattle.lrc_rows.specs.Listed.{rows_in};
    ghost use Rattle.lrc_rows.specs.NodeStates.{states_in, AreUpgrading, is_on_several_down};
    ghost use Rattle.lrc_rows.specs.Kept.{IsKept};
    ghost use Rattle.lrc_stripes.specs.UpgradeLosses.{lost_in, AreVerdicts};

    ghost Value = { Table };

    ghost view = { λ t. record { node_table = t.node_table.list; rows = t.rows.list } };

    ghost invariant = { λ t. record { kept : IsKept (states_in t.node_table) (rows_in t.rows.list); upgrading : AreUpgrading t.node_table.list t.rows.upgrading; verdicts : AreVerdicts (lost_in (states_in t.node_table) t.rows.list) (is_on_several_down (states_in t.node_table)) t.verdicts } };
}

#[tactic(auto, unfolding(crate::specs::Tables::stored_in))]
impl Stripes {
    /// No stripes. Every node of the topology is active, and none is down or upgrading. Allocates for all stripe numbers, so that
    /// no later call allocates.
    ///
    /// # Errors
    ///
    /// Only `Fault::OutOfMemory`.
    pub fn new(alloc: Global, topology: &Topology) -> Result<Stripes, Fault>
        ensures value { IfOk result (λ t. stored_in t ≡ empty topology.now) }
        ensures err { IfErr result (λ e. e ≡ OutOfMemory) }
    {
        Ok(Stripes {
            node_table: NodeTable::new(alloc, topology)?,
            rows: Rows::new(alloc)?,
            verdicts: Verdicts::new(alloc)?,
        })
    }

    /// Adds a stripe of the code `Wide` without homes.
    pub fn add(&mut self, stripe: StripeNo)
        requires absent { IsFalse ((stored_in self.old).stripes stripe) }
        ensures { stored_in self.new ≡ with_stripe (stored_in self.old) Wide stripe }
    {
        self.rows.add(stripe, Row::new(Code::Wide));
        self.verdicts.mark(stripe);
    }

    /// Adds a stripe of the code `Narrow` without homes.
    pub fn add_narrow(&mut self, stripe: StripeNo)
        requires absent { IsFalse ((stored_in self.old).stripes stripe) }
        ensures { stored_in self.new ≡ with_stripe (stored_in self.old) Narrow stripe }
    {
        self.rows.add(stripe, Row::new(Code::Narrow));
        self.verdicts.mark(stripe);
    }

    /// Adds a stripe of the code with these homes, in rising order of the fragments.
    pub fn add_with_homes(&mut self, code: Code, stripe: StripeNo, seats: &[Seat])
        requires absent { IsFalse ((stored_in self.old).stripes stripe) }
        requires length { length seats.now ≡ fragment_count code }
        requires slots { All (λ seat. IsTrue (has_slot (infos_in (stored_in self.old).nodes) seat)) seats.now }
        ensures { stored_in self.new ≡ with_homes (stored_in self.old) code stripe seats.now }
    {
        let mut domains = HomeDomains::none();
        let losses = self.node_table.enter(code, stripe, seats, &mut domains);
        let row = Row::seated(code, seats, losses, domains);
        self.rows.add(stripe, row);
        self.verdicts.mark(stripe);
    }

    /// Removes a stripe and its homes.
    pub fn remove(&mut self, stripe: StripeNo)
        requires { IsTrue ((stored_in self.old).stripes stripe) }
        ensures { stored_in self.new ≡ without_stripe (stored_in self.old) stripe }
    {
        if let Some(row) = self.rows.get(stripe) {
            self.node_table.leave(stripe, row);
            self.rows.remove(stripe);
            self.verdicts.mark(stripe);
        }
    }

    /// Sets the home of a fragment that has none. No other fragment has its home on the seat.
    pub fn set_home(&mut self, stripe: StripeNo, fragment: Fragment, seat: Seat)
        requires stripe { IsTrue ((stored_in self.old).stripes stripe) }
        requires code { IsTrue (has_fragment ((stored_in self.old).code stripe) fragment.value) }
        requires homeless { (stored_in self.old).homes stripe fragment.value ≡ None }
        requires slot { IsTrue (has_slot (infos_in (stored_in self.old).nodes) seat) }
        requires unused { HasNoHome (stored_in self.old) seat }
        ensures { stored_in self.new ≡ with_home (stored_in self.old) stripe fragment (Some seat) }
    {
        self.rehome(stripe, fragment, Some(seat));
    }

    /// Sets the home of a fragment, whether it has one or not. No fragment has its home on the seat.
    pub fn put_home(&mut self, stripe: StripeNo, fragment: Fragment, seat: Seat)
        requires stripe { IsTrue ((stored_in self.old).stripes stripe) }
        requires code { IsTrue (has_fragment ((stored_in self.old).code stripe) fragment.value) }
        requires slot { IsTrue (has_slot (infos_in (stored_in self.old).nodes) seat) }
        requires unused { HasNoHome (stored_in self.old) seat }
        ensures { stored_in self.new ≡ with_home (stored_in self.old) stripe fragment (Some seat) }
    {
        self.rehome(stripe, fragment, Some(seat));
    }

    /// Clears the home of a fragment, whether it has one or not.
    pub fn clear_home(&mut self, stripe: StripeNo, fragment: Fragment)
        requires stripe { IsTrue ((stored_in self.old).stripes stripe) }
        requires code { IsTrue (has_fragment ((stored_in self.old).code stripe) fragment.value) }
        ensures { stored_in self.new ≡ with_home (stored_in self.old) stripe fragment None }
    {
        self.rehome(stripe, fragment, None);
    }

    /// Sets the home of a fragment, or clears it.
    #[inline(always)] // each caller then keeps only its own branch
    fn rehome(&mut self, stripe: StripeNo, fragment: Fragment, home: Option<Seat>)
        requires there { IsTrue ((stored_in self.old).stripes stripe) }
        requires code { IsTrue (has_fragment ((stored_in self.old).code stripe) fragment.value) }
        requires slot { IfSome home (λ seat. IsTrue (has_slot (infos_in (stored_in self.old).nodes) seat)) }
        ensures { stored_in self.new ≡ with_home (stored_in self.old) stripe fragment home }
    {
        if let Some(row) = self.rows.get(stripe) {
            let former = row.homes.home(fragment);
            let kept = row.losses_up(&self.node_table, stripe);
            let mut domains = row.domains;
            let losses = self
                .node_table
                .seat(stripe, fragment, home, kept, &mut domains);
            self.rows.set_home(stripe, fragment, home, domains, losses);
            self.node_table.unseat(stripe, former, &self.rows);
            self.verdicts.mark(stripe);
        }
    }

    /// Sets the mode of a node, and whether it is down.
    pub fn set_state(&mut self, node: NodeNo, mode: Mode, is_down: bool)
        requires { IsTrue (has_node (infos_in (stored_in self.old).nodes) node) }
        ensures { stored_in self.new ≡ with_state (stored_in self.old) node mode is_down }
    {
        let was_up = self.node_table.is_up(node);
        self.rows
            .follow_draining(&self.node_table, node, mode.is_draining());
        self.node_table.set_state(node, mode, is_down);
        self.rows.follow_up(&self.node_table, node, was_up);
        self.verdicts.follow_up(&self.node_table, node, was_up);
    }

    /// Sets whether the nodes of an upgrade domain are upgrading.
    pub fn set_upgrading_in(&mut self, domain: UpgradeNo, is_upgrading: bool)
        ensures { stored_in self.new ≡ with_upgrading_in (stored_in self.old) domain is_upgrading }
    {
        self.node_table.set_upgrading_in(domain, is_upgrading);
        self.rows.set_upgrading_in(domain, is_upgrading);
    }

    /// Looks ahead for `would_lose_short`, and keeps what it finds. Nothing else can tell.
    pub fn settle(&mut self, domain: UpgradeNo)
        ensures { self.new ≡ self.old }
    {
        upgrades::settle(&self.node_table, &self.rows, &mut self.verdicts, domain);
    }
}
