ghost use Rattle.std.specs.Prelude.{◌≡◌, true, IsTrue, IfOk, IfErr, OnOk, IsOk};
ghost use Rattle.lrc_code.specs.declared.fault.Fault.TheVariants as fault;
ghost use Rattle.lrc_slots.specs.Slots.{all_free};
ghost use Rattle.lrc_slots.specs.Tables.{slots_of};
ghost use Rattle.lrc_stripes.specs.Stored as stored;
ghost use Rattle.lrc_stripes.specs.Tables.{stored_in};
ghost use Rattle.lrc_rules.specs.States.{State, opening, code_of};
ghost use Rattle.lrc_rules.specs.Leases.{without_lease, without_home};
ghost use Rattle.lrc_store.specs.Stores.{IsOf, IsTied};
ghost use Rattle.lrc_bars.specs.Ties.{kept_table};

use crate::clock::Clock;
use lrc_code::{Code, Fault, Fragment, STRIPES, StripeNo, UpgradeNo};
use lrc_leases::Leases;
use lrc_slots::SlotTable;
use lrc_stripes::{HomeDomains, Stripes};
use lrc_topology::Topology;
use std::alloc::Global;

/// The state of a book: the taken slots; the nodes with their states and the homes of fragments; the live leases, with the
/// domains of their targets; the upgrade domain that is upgrading; and the clock. Contracts speak of its fields.
#[derive(Drop)]
pub struct Store {
    pub topology: Topology,
    pub table: SlotTable,
    pub stripes: Stripes,
    pub leases: Leases,
    /// By stripe number, the domains of the targets of its leases; any value for a fragment without a lease.
    pub target_domains: Vec<HomeDomains>,
    pub upgrading: Option<UpgradeNo>,
    pub clock: Clock,
}

impl Store {
    /// No stripes, every node active and not down, and no domain upgrading. Allocates for all stripes and leases, so that no later
    /// call allocates.
    pub fn new(alloc: Global, topology: Topology) -> Result<Store, Fault>
        ensures value { IfOk result (λ s. (s.topology ≡ topology) × IsOf opening s) }
        ensures err { IfErr result (λ e. e ≡ fault.OutOfMemory) }
    {
        let leases = Leases::new(alloc)?;
        let target_domains = HomeDomains::of_none(alloc, STRIPES)?;
        let (table, stripes) = no_stripes(alloc, &topology)?;
        Ok(Store {
            topology,
            table,
            stripes,
            leases,
            target_domains,
            upgrading: None,
            clock: Clock::new(),
        })
    }

    /// The code of a stripe; `Wide` where there is no such stripe.
    pub fn code_of(&self, stripe: StripeNo) -> Code
        ensures { (st : State) → IsOf st self.now → result ≡ code_of st stripe }
    {
        self.stripes.code(stripe).unwrap_or(Code::Wide)
    }

    /// Takes a fragment's home away, if it has one, and gives the seat back.
    pub(crate) fn clear_home(&mut self, stripe: StripeNo, fragment: Fragment)
        requires tied { IsTied self.old }
        requires there { IsTrue ((stored_in self.old.stripes).stripes stripe) }
        ensures nodes { self.new.topology ≡ self.old.topology }
        ensures kept { (st : State) → IsOf st self.old → IsOf (without_home st stripe fragment) self.new }
    {
        if let Some(seat) = self.stripes.home(stripe, fragment) {
            self.table.free(seat.node, seat.slot);
            self.stripes.clear_home(stripe, fragment);
        }
    }

    /// Gives the seat of a fragment's home back, if it has one. The home is left to be replaced.
    pub(crate) fn free_home(&mut self, stripe: StripeNo, fragment: Fragment)
        requires tied { IsTied self.old }
        requires there { IsTrue ((stored_in self.old.stripes).stripes stripe) }
        ensures rest { self.new ≡ record self.old { table = self.new.table } }
        ensures table { (st : State) → IsOf st self.old → slots_of self.new.table ≡ kept_table self.old.topology (without_home st stripe fragment) }
    {
        if let Some(seat) = self.stripes.home(stripe, fragment) {
            self.table.free(seat.node, seat.slot);
        }
    }

    /// Ends the lease of a fragment, if it has one, and gives its target back.
    pub(crate) fn end_lease(&mut self, stripe: StripeNo, fragment: Fragment)
        requires { IsTied self.old }
        ensures nodes { self.new.topology ≡ self.old.topology }
        ensures clock { self.new.clock ≡ self.old.clock }
        ensures kept { (st : State) → IsOf st self.old → IsOf (without_lease st stripe fragment) self.new }
    {
        if !self.leases.leased(stripe).contains(fragment) {
            return;
        }
        if let Some(lease) = self.leases.remove(stripe, fragment) {
            self.table.free(lease.target.node, lease.target.slot);
        }
    }
}

/// Every slot free, and no stripes.
fn no_stripes(alloc: Global, topology: &Topology) -> Result<(SlotTable, Stripes), Fault>
    ensures value { IfOk result (λ r. (slots_of r.0 ≡ all_free topology.now) × (stored_in r.1 ≡ stored.empty topology.now)) }
    ensures err { IfErr result (λ e. e ≡ fault.OutOfMemory) }
{
    let table = SlotTable::new(alloc, topology)?;
    let stripes = Stripes::new(alloc, topology)?;
    Ok((table, stripes))
}
