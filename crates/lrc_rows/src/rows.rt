ghost use Rattle.std.specs.Prelude.{◌≡◌, if◌then◌else◌, ◌||◌, ◌&&◌, ℕ, nat_lt, ◌<◌, ◌≤◌, length, get_or, option_and_then, replicate, Some, None, is_some, true, false, IsTrue, IfOk, IfErr, IfSome};
ghost use Rattle.std.specs.Option.{option_copied};
ghost use Rattle.lrc_code.specs.Numbers.{same_stripe};
ghost use Rattle.lrc_code.specs.declared.numbers.StripeNo.{StripeNo as AnyStripe};
ghost use Rattle.lrc_rows.specs.declared.row.Row.{Row as AnyRow};
ghost use Rattle.lrc_code.specs.declared.fault.Fault.TheVariants.{OutOfMemory};
ghost use Rattle.lrc_ranks.specs.Ranks.{is_at, queue_from};
ghost use Rattle.lrc_homes.specs.Masks.{risk_rank};
ghost use Rattle.lrc_homes.specs.Upgrading.{work_rank_with};
ghost use Rattle.lrc_ranks.specs.Sets.{has, at_fragment};
ghost use Rattle.lrc_code.specs.declared.codes.Code.TheVariants.{Wide, Narrow};
ghost use Rattle.lrc_rows.specs.Kept.{row_has_work, IsKept, queued, ranked, needs_of, is_planed, freshened, level_in, is_row_on, holds, AreRenewed, IsRenewed, IsWithLosses, IsWithMissing, IsRehomed, IsMissingOn, IsToMoveOn};
ghost use Rattle.lrc_rows.specs.NodeStates.{states_in, AreUpgrading};
ghost use Rattle.lrc_homes.specs.Homes.{sits_on};
ghost use Rattle.lrc_code.specs.Losses.{bits_set};
ghost use Rattle.lrc_rows.specs.Listed.{rows_in};

mod following;
mod one_row;

use crate::node_table::NodeTable;
use crate::row::Row;
use crate::upgrading_domains::UpgradingDomains;
use lrc_code::{Code, Fault, Fragment, LossMask, NodeNo, STRIPES, StripeNo};
use lrc_homes::{HomeDomains, Losses, masks};
use lrc_ranks::{KeptPlanes, Position, Queue, StripeSet, Work};
use lrc_terms::Level;
use lrc_topology::Seat;
use one_row::{
    is_narrow, needs_of, planed, put_home, put_losses, put_missing, set_planes, work_rank,
};
use std::alloc::{AllocError, Global};
use std::marker::Model;

/// The rows of the stripes that exist, and the stripes that have work, by rank.
#[derive(Drop)]
pub struct Rows {
    /// By stripe number.
    list: Vec<Option<Row>>,
    /// By stripe number, the fragments that need a lease, as bits; 0 for no stripe. A copy: a walk by rank reads no rows.
    needs: Vec<u16>,
    /// The stripes that exist. A copy, so that a test reads no row.
    there: StripeSet,
    work: Queue,
    /// The stripes that have work, and their missing fragments by the masks of their rows.
    planes: KeptPlanes,
    /// The upgrade domains whose nodes are upgrading.
    upgrading: UpgradingDomains,
}

impl Model for Rows {
    ghost use Rattle.lrc_rows.specs.Listed.{RowTable};
    ghost use Rattle.lrc_rows.specs.Kept.{AreQueued};

    ghost Value = { RowTable };

    ghost view = { λ t. record { list = t.list.items; upgrading = t.upgrading } };

    ghost invariant = { λ t. AreQueued t.list.items t.upgrading t.needs.items t.there t.work t.planes };
}

impl Rows {
    /// No rows, and room for a row of each stripe number. No upgrade domain is upgrading.
    pub fn new(alloc: Global) -> Result<Rows, Fault>
        ensures value { IfOk result (λ t. rows_in t.list ≡ λ s. None) }
        ensures upgrading { IfOk result (λ t. t.upgrading ≡ replicate 256 false) }
        ensures err { IfErr result (λ e. e ≡ OutOfMemory) }
    {
        Ok(Rows {
            list: none(alloc, STRIPES)?,
            needs: zeros(alloc, STRIPES)?,
            there: StripeSet::new(),
            work: Queue::new(),
            planes: KeptPlanes::new(),
            upgrading: UpgradingDomains::new(),
        })
    }

    /// The upgrade domains whose nodes are upgrading.
    pub fn upgrading(&self) -> &UpgradingDomains
        ensures { result.now ≡ self.now.upgrading }
    {
        &self.upgrading
    }

    /// Whether a stripe exists.
    pub fn contains(&self, stripe: StripeNo) -> bool
        ensures { result ≡ is_some (rows_in self.now.list stripe) }
    {
        self.there.contains(stripe)
    }

    /// The row of a stripe, if it exists.
    pub fn get(&self, stripe: StripeNo) -> Option<&Row>
        ensures { option_copied result ≡ rows_in self.now.list stripe }
    {
        self.list[stripe.value as usize].as_ref()
    }

    /// The fragments of a stripe that need a lease; none for a stripe that does not exist.
    pub fn needs(&self, stripe: StripeNo) -> LossMask
        ensures value { result.bits ≡ needs_of (rows_in self.now.list stripe) }
        ensures few { result.bits < 65536 }
    {
        LossMask::from_bits(self.needs[stripe.value as usize])
    }

    /// The fragments of an existing stripe that have a home.
    pub fn homed(&self, stripe: StripeNo) -> LossMask
        ensures few { result.bits < 65536 }
        ensures homed { (r : AnyRow) → rows_in self.now.list stripe ≡ Some r → (f : ℕ) → bits_set result.bits f ≡ is_some (get_or r.homes f None) }
    {
        match self.get(stripe) {
            Some(row) => row.homes.homed(),
            None => LossMask::from_bits(0),
        }
    }

    /// Adds or replaces the row of a stripe.
    #[inline(always)] // so that the row of a new stripe is made where it is stored
    pub fn add(&mut self, stripe: StripeNo, row: Row)
        ensures rows { rows_in self.new.list ≡ λ s. if same_stripe stripe s then Some row else rows_in self.old.list s }
        ensures upgrading { self.new.upgrading ≡ self.old.upgrading }
    {
        let rank = row.work_rank(&self.upgrading);
        let needs = row.losses.needs.bits;
        let before = planed(self.list[stripe.value as usize].as_ref());
        self.planes.set_narrow(stripe, is_narrow(row.losses.code));
        set_planes(&mut self.planes, stripe, before, row.planed(), needs != 0);
        self.needs[stripe.value as usize] = needs;
        self.there.set(stripe, true);
        self.list[stripe.value as usize] = Some(row);
        self.work.relist(stripe, rank);
    }

    /// Removes the row of a stripe.
    pub fn remove(&mut self, stripe: StripeNo)
        ensures rows { rows_in self.new.list ≡ λ s. if same_stripe stripe s then None else rows_in self.old.list s }
        ensures upgrading { self.new.upgrading ≡ self.old.upgrading }
    {
        let before = planed(self.list[stripe.value as usize].as_ref());
        set_planes(
            &mut self.planes,
            stripe,
            before,
            LossMask::from_bits(0),
            false,
        );
        self.needs[stripe.value as usize] = 0;
        self.there.set(stripe, false);
        self.list[stripe.value as usize] = None;
        self.work.relist(stripe, None);
    }

    /// Sets the losses of a stripe, if it exists. The code stays.
    fn set_losses(&mut self, stripe: StripeNo, losses: Losses)
        requires { (r : AnyRow) → rows_in self.old.list stripe ≡ Some r → losses.code ≡ r.losses.code }
        ensures rows { AreRenewed (same_stripe stripe) (IsWithLosses losses) (rows_in self.old.list) (rows_in self.new.list) }
        ensures upgrading { self.new.upgrading ≡ self.old.upgrading }
    {
        let row = &mut self.list[stripe.value as usize];
        let before = planed(row.as_ref());
        put_losses(row, losses);
        let needs = needs_of(row.as_ref());
        let after = planed(row.as_ref());
        set_planes(&mut self.planes, stripe, before, after, needs != 0);
        self.needs[stripe.value as usize] = needs;
        let rank = work_rank(row.as_ref(), &self.upgrading);
        self.work.relist(stripe, rank);
    }

    /// Sets or clears the home of a fragment of an existing stripe, and sets its domains and losses. The code stays.
    pub fn set_home(
        &mut self,
        stripe: StripeNo,
        fragment: Fragment,
        home: Option<Seat>,
        domains: HomeDomains,
        losses: Losses,
    )
        requires there { IsTrue (is_some (rows_in self.old.list stripe)) }
        requires code { (r : AnyRow) → rows_in self.old.list stripe ≡ Some r → losses.code ≡ r.losses.code }
        ensures rows { AreRenewed (same_stripe stripe) (IsRehomed fragment.value home domains losses) (rows_in self.old.list) (rows_in self.new.list) }
        ensures upgrading { self.new.upgrading ≡ self.old.upgrading }
    {
        let row = &mut self.list[stripe.value as usize];
        let before = planed(row.as_ref());
        put_home(row, fragment, home, domains, losses);
        let needs = losses.needs.bits;
        let after = planed(row.as_ref());
        set_planes(&mut self.planes, stripe, before, after, needs != 0);
        self.needs[stripe.value as usize] = needs;
        let rank = work_rank(row.as_ref(), &self.upgrading);
        self.work.relist(stripe, rank);
    }

    /// The fragments of an existing stripe whose homes are on the node.
    pub fn fragments_on(&self, stripe: StripeNo, node: NodeNo) -> LossMask
        ensures few { result.bits < 65536 }
        ensures on { (r : AnyRow) → rows_in self.now.list stripe ≡ Some r → (f : ℕ) → bits_set result.bits f ≡ (nat_lt f 16 && sits_on node (get_or r.homes f None)) }
    {
        match self.get(stripe) {
            Some(row) => row.homes.fragments_on(node),
            None => LossMask::from_bits(0),
        }
    }

    /// Whether a fragment of an existing stripe has its home on the node.
    pub(crate) fn is_on(&self, stripe: StripeNo, node: NodeNo) -> bool
        requires { IsTrue (is_some (rows_in self.now.list stripe)) }
        ensures { result ≡ is_row_on node (rows_in self.now.list stripe) }
    {
        self.fragments_on(stripe, node).bits != 0
    }

    /// Whether a fragment of the stripe has its home on the seat.
    pub fn holds(&self, stripe: StripeNo, seat: Seat) -> bool
        ensures { result ≡ holds seat (rows_in self.now.list stripe) }
    {
        match self.get(stripe) {
            Some(row) => row.holds(seat),
            None => false,
        }
    }

    /// Sets whether the fragments on the node are missing, in the stripes that have work, all of which are in the set.
    fn renew_missing(
        &mut self,
        node_table: &NodeTable,
        work: &StripeSet,
        node: NodeNo,
        are_missing: bool,
    )
        requires { (s : AnyStripe) → has work.now s ≡ false → row_has_work (rows_in self.old.list s) ≡ false }
        ensures rows { AreRenewed ((states_in node_table.now).on node) (IsMissingOn node are_missing) (rows_in self.old.list) (rows_in self.new.list) }
        ensures upgrading { self.new.upgrading ≡ self.old.upgrading }
    {
        if let Some(stripes) = node_table.stripes_on(node) {
            let mut common = StripeSet::new();
            common.insert_common(stripes, work);
            self.renew_missing_in(&common, node, are_missing);
        }
    }

    /// Does the same for a set of stripes, with or without work and a home on the node.
    fn renew_missing_in(&mut self, stripes: &StripeSet, node: NodeNo, are_missing: bool)
        ensures rows { AreRenewed (has stripes.now) (IsMissingOn node are_missing) (rows_in self.old.list) (rows_in self.new.list) }
        ensures upgrading { self.new.upgrading ≡ self.old.upgrading }
    {
        let mut left = stripes.members();
        while let Some(stripe) = left.next_stripe() {
            self.renew_missing_of(stripe, node, are_missing);
        }
    }

    /// Sets whether the fragments of a stripe on the node are missing, if the stripe exists.
    fn renew_missing_of(&mut self, stripe: StripeNo, node: NodeNo, are_missing: bool)
        ensures rows { AreRenewed (same_stripe stripe) (IsMissingOn node are_missing) (rows_in self.old.list) (rows_in self.new.list) }
        ensures upgrading { self.new.upgrading ≡ self.old.upgrading }
    {
        let fragments = self.fragments_on(stripe, node);
        self.put_missing(stripe, fragments, are_missing);
    }

    /// Sets whether these fragments of a stripe are missing, if the stripe exists.
    fn put_missing(&mut self, stripe: StripeNo, fragments: LossMask, are_missing: bool)
        ensures rows { AreRenewed (same_stripe stripe) (IsWithMissing fragments are_missing) (rows_in self.old.list) (rows_in self.new.list) }
        ensures upgrading { self.new.upgrading ≡ self.old.upgrading }
    {
        let row = &mut self.list[stripe.value as usize];
        let before = planed(row.as_ref());
        put_missing(row, fragments, are_missing);
        let needs = needs_of(row.as_ref());
        let after = planed(row.as_ref());
        set_planes(&mut self.planes, stripe, before, after, needs != 0);
        let rank = work_rank(row.as_ref(), &self.upgrading);
        self.work.relist(stripe, rank);
    }

    /// Sets whether the fragments on the node need a lease. The masks of the rows must be kept.
    fn renew_needs(&mut self, node_table: &NodeTable, node: NodeNo, are_to_move: bool)
        requires { IsKept (states_in node_table.now) (rows_in self.old.list) }
        ensures rows { AreRenewed ((states_in node_table.now).on node) (IsToMoveOn (states_in node_table.now).up node are_to_move) (rows_in self.old.list) (rows_in self.new.list) }
        ensures upgrading { self.new.upgrading ≡ self.old.upgrading }
    {
        if let Some(stripes) = node_table.stripes_on(node) {
            self.renew_needs_in(stripes, node_table, node, are_to_move);
        }
    }

    /// Does the same for a set of stripes, with or without a home on the node.
    fn renew_needs_in(
        &mut self,
        stripes: &StripeSet,
        node_table: &NodeTable,
        node: NodeNo,
        are_to_move: bool,
    )
        requires { IsKept (states_in node_table.now) (rows_in self.old.list) }
        ensures rows { AreRenewed (has stripes.now) (IsToMoveOn (states_in node_table.now).up node are_to_move) (rows_in self.old.list) (rows_in self.new.list) }
        ensures upgrading { self.new.upgrading ≡ self.old.upgrading }
    {
        let mut left = stripes.members();
        while let Some(stripe) = left.next_stripe() {
            if let Some(row) = self.get(stripe) {
                let fragments = self.fragments_on(stripe, node);
                let losses = row.with_needs(node_table, stripe, fragments, are_to_move);
                self.set_losses(stripe, losses);
            }
        }
    }

    /// The level of a stripe; `Whole` for none. The masks must be kept, and the upgrading domains those of the nodes.
    pub fn level(&self, node_table: &NodeTable, stripe: StripeNo) -> Level
        requires kept { IsKept (states_in node_table.now) (rows_in self.now.list) }
        requires upgrading { AreUpgrading node_table.now.list self.now.upgrading }
        ensures { result ≡ level_in (rows_in (freshened (states_in node_table.now).online self.now.list) stripe) }
    {
        match self.get(stripe) {
            Some(row) => row.losses_kept(node_table, &self.upgrading, stripe).level(),
            None => Level::Whole,
        }
    }

    /// The rank of a stripe with a missing fragment; `None` for any other. The masks of the rows
    /// must be kept, and the upgrading domains be those of the nodes.
    pub fn risk_rank(&self, node_table: &NodeTable, stripe: StripeNo) -> Option<u8>
        requires kept { IsKept (states_in node_table.now) (rows_in self.now.list) }
        requires upgrading { AreUpgrading node_table.now.list self.now.upgrading }
        ensures rank { (k : ℕ) → queued risk_rank (rows_in (freshened (states_in node_table.now).online self.now.list)) k stripe ≡ is_at k result }
        ensures few { IfSome result (λ k. k ≤ 4) }
    {
        let row = self.get(stripe)?;
        row.losses_kept(node_table, &self.upgrading, stripe)
            .risk_rank()
    }

    /// Whether a stripe has work.
    pub fn has_work(&self) -> bool
        ensures none { result ≡ false → (s : AnyStripe) → row_has_work (rows_in self.now.list s) ≡ false }
        ensures some { result ≡ true → (s : AnyStripe) × (row_has_work (rows_in self.now.list s) ≡ true) }
    {
        !self.work.is_empty()
    }

    /// The set of the stripes that have work.
    fn work_set(&self) -> StripeSet
        ensures { has result ≡ λ s. row_has_work (rows_in self.now.list s) }
    {
        let mut set = StripeSet::new();
        self.join_work(&mut set);
        set
    }

    /// Adds the stripes that have work to a set.
    pub fn join_work(&self, set: &mut StripeSet)
        ensures { has set.new ≡ λ s. has set.old s || row_has_work (rows_in self.now.list s) }
    {
        set.insert_all(&self.planes.planes().work);
    }

    /// The stripes that have work, in the order of repair.
    pub fn work(&self) -> Work<'_>
        ensures { result ≡ queue_from (ranked self.now.upgrading (rows_in self.now.list)) 0 0 }
    {
        self.work.walk(Position { rank: 0, from: 0 })
    }

    /// The stripes that have work from this one on, which has work itself, in the order of repair.
    pub fn work_from(&self, first: StripeNo) -> Work<'_>
        ensures { (k : ℕ) → IsTrue (ranked self.now.upgrading (rows_in self.now.list) k first) → result ≡ queue_from (ranked self.now.upgrading (rows_in self.now.list)) k first.value }
    {
        match self.work.rank(first) {
            Some(rank) => self.work.walk(Position {
                rank: rank as usize,
                from: first.value as usize,
            }),
            None => self.work(),
        }
    }
}

/// `count` missing rows.
fn none(alloc: Global, count: usize) -> Result<Vec<Option<Row>>, AllocError>
    ensures { IfOk result (λ v. v.items ≡ replicate count None) }
{
    let mut rows = Vec::with_capacity(alloc, count)?;
    for _ in 0..count {
        rows.push(None)?;
    }
    Ok(rows)
}

/// `count` zeros.
fn zeros(alloc: Global, count: usize) -> Result<Vec<u16>, AllocError>
    ensures { IfOk result (λ v. v.items ≡ replicate count 0) }
{
    vec![in alloc; 0; count]
}
