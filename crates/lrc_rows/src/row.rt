ghost use Rattle.std.specs.Prelude.{◌≡◌, ℕ, ◌≤◌, if◌then◌else◌, length, replicate, true, None, is_some, IfSome, ◌<◌, ◌&&◌, not, nat_lt, nat_eq, get_or};
ghost use Rattle.std.specs.List.{list_any};
ghost use Rattle.lrc_code.specs.Codes.{fragment_count};
ghost use Rattle.lrc_code.specs.Losses.{bits_set, bits_of};
ghost use Rattle.lrc_homes.specs.Homes.{seated_homes, sits_on, is_on_seat, is_missing};
ghost use Rattle.lrc_rows.specs.NodeStates.{states_in, AreUpgrading};
ghost use Rattle.lrc_homes.specs.Masks.{AreAll, AreKept, renewed, missing_of};
ghost use Rattle.lrc_homes.specs.Domains.{AreDomainsOf};
ghost use Rattle.lrc_homes.specs.Upgrading.{in_upgrade, missing_with, work_rank_with};
ghost use Rattle.lrc_code.specs.declared.numbers.NodeNo.{NodeNo as AnyNode};
ghost use Rattle.lrc_code.specs.declared.numbers.StripeNo.{StripeNo as AnyStripe};

use crate::node_table::NodeTable;
use crate::upgrading_domains::UpgradingDomains;
use lrc_code::{Code, Fragment, LossMask, StripeNo, UpgradeNo};
use lrc_homes::{HomeDomains, Homes, Losses, masks};
use lrc_topology::Seat;

/// The homes of the fragments of a stripe with the domains of their nodes, and the masks that follow from them. The mask of
/// the missing fragments is that of the nodes that are down or gone: whoever reads it adds the homes in upgrading domains.
#[derive(Drop)]
pub struct Row {
    pub losses: Losses,
    pub homes: Homes,
    pub domains: HomeDomains,
    pub ghost sixteen: { length homes ≡ 16 },
}

impl Row {
    /// The row of a stripe of the code without homes.
    pub fn new(code: Code) -> Row
        ensures code { result.losses.code ≡ code }
        ensures homes { result.homes ≡ replicate 16 None }
        ensures losses { AreAll code result.losses }
    {
        Row {
            losses: Losses::all(code),
            homes: Homes::new(),
            domains: HomeDomains::none(),
        }
    }

    /// The row of a stripe of the code with homes on these seats, one for each fragment, and with
    /// these losses and domains.
    pub fn seated(code: Code, seats: &[Seat], losses: Losses, domains: HomeDomains) -> Row
        requires { length seats.now ≡ fragment_count code }
        ensures homes { result.homes ≡ seated_homes seats.now }
        ensures losses { result.losses ≡ losses }
        ensures domains { result.domains ≡ domains }
    {
        Row {
            losses,
            homes: Homes::seated(code, seats),
            domains,
        }
    }

    /// The losses, with the mask of the missing fragments recomputed from the homes by the nodes that are up.
    fn losses_now(&self, node_table: &NodeTable) -> Losses
        ensures { result ≡ renewed (states_in node_table.now).up self.now.homes self.now.losses }
    {
        let mut losses = self.losses;
        losses.missing = missing_of(self.losses.code, &self.homes, node_table);
        losses
    }

    /// The same for a row in the table: its masks are kept, and the stripe is on the node of each
    /// home. The stored mask is exact if the row has work; otherwise it may be out of date.
    pub fn losses_up(&self, node_table: &NodeTable, stripe: StripeNo) -> Losses
        requires kept { AreKept (states_in node_table.now).up (states_in node_table.now).draining self.now.homes self.now.losses }
        requires stands { (n : AnyNode) → list_any (sits_on n) self.now.homes ≡ true → (states_in node_table.now).on n stripe ≡ true }
        ensures { result ≡ renewed (states_in node_table.now).up self.now.homes self.now.losses }
    {
        if self.losses.needs.bits == 0 {
            return self.losses_idle(node_table, stripe);
        }
        let mut losses = self.losses;
        losses.missing = self.losses.missing();
        losses
    }

    /// The same for a row without work: no fragment is missing if no node with a home of the stripe is offline.
    #[inline(never)] // the path of a row with work stays short
    fn losses_idle(&self, node_table: &NodeTable, stripe: StripeNo) -> Losses
        requires kept { AreKept (states_in node_table.now).up (states_in node_table.now).draining self.now.homes self.now.losses }
        requires stands { (n : AnyNode) → list_any (sits_on n) self.now.homes ≡ true → (states_in node_table.now).on n stripe ≡ true }
        requires idle { self.now.losses.needs.bits ≡ 0 }
        ensures { result ≡ renewed (states_in node_table.now).up self.now.homes self.now.losses }
    {
        if node_table.is_clear(stripe) {
            let mut losses = self.losses;
            losses.missing = LossMask::from_bits(0);
            return losses;
        }
        self.losses_now(node_table)
    }

    /// The losses with the missing fragments of now: those that are missing by the nodes that are up, and those with a home in
    /// an upgrading domain.
    pub fn losses_kept(
        &self,
        node_table: &NodeTable,
        upgrading: &UpgradingDomains,
        stripe: StripeNo,
    ) -> Losses
        requires kept { AreKept (states_in node_table.now).up (states_in node_table.now).draining self.now.homes self.now.losses }
        requires domains { AreDomainsOf (states_in node_table.now).nodes (λ f. get_or self.now.homes f None) self.now.domains }
        requires stands { (n : AnyNode) → list_any (sits_on n) self.now.homes ≡ true → (states_in node_table.now).on n stripe ≡ true }
        requires upgrading { AreUpgrading node_table.now.list upgrading.now }
        ensures { result ≡ renewed (states_in node_table.now).online self.now.homes self.now.losses }
    {
        let mut losses = self.losses_up(node_table, stripe);
        let bits = losses.missing.bits | self.in_upgrade(upgrading).bits;
        losses.missing = LossMask::from_bits(bits);
        losses
    }

    /// The missing fragments of a row with work: those of the mask, and those with a home in an upgrading domain.
    fn missing(&self, upgrading: &UpgradingDomains) -> LossMask
        ensures { (f : ℕ) → bits_set result.bits f ≡ missing_with upgrading.now self.now.homes self.now.domains self.now.losses f }
    {
        LossMask::from_bits(self.losses.missing.bits | self.in_upgrade(upgrading).bits)
    }

    /// The rank by these fragments; `None` without work.
    pub(crate) fn work_rank(&self, upgrading: &UpgradingDomains) -> Option<u8>
        ensures value { result ≡ work_rank_with upgrading.now self.now.homes self.now.domains self.now.losses }
        ensures few { IfSome result (λ k. k ≤ 4) }
    {
        let mut losses = self.losses;
        losses.missing = self.missing(upgrading);
        losses.work_rank()
    }

    /// The fragments of the mask of the missing ones; none without work, since that may be out of date then.
    pub(crate) fn planed(&self) -> LossMask
        ensures { (f : ℕ) → bits_set result.bits f ≡ (not (nat_eq self.now.losses.needs.bits 0) && bits_set self.now.losses.missing.bits f) }
    {
        if self.losses.needs.bits == 0 {
            return LossMask::from_bits(0);
        }
        self.losses.missing
    }

    /// The fragments with a home in an upgrading domain.
    pub(crate) fn in_upgrade(&self, upgrading: &UpgradingDomains) -> LossMask
        ensures few { result.bits < 65536 }
        ensures homes { (f : ℕ) → bits_set result.bits f ≡ in_upgrade upgrading.now self.now.homes self.now.domains f }
    {
        LossMask::from_bits(upgrading.fragments_in(&self.domains).bits & self.homes.homed().bits)
    }

    /// The fragments with a home for which the upgrade domain is stored.
    pub fn homes_in(&self, domain: UpgradeNo) -> LossMask
        ensures few { result.bits < 65536 }
        ensures homes { (f : ℕ) → bits_set result.bits f ≡ ((nat_lt f 16 && nat_eq (get_or self.now.domains.upgrades f 0) domain.value) && is_some (get_or self.now.homes f None)) }
    {
        LossMask::from_bits(self.domains.in_upgrade(domain).bits & self.homes.homed().bits)
    }

    /// The losses with an exact mask of the missing fragments by the nodes that are up, after these fragments are set to need
    /// a lease or not.
    pub(crate) fn with_needs(
        &self,
        node_table: &NodeTable,
        stripe: StripeNo,
        fragments: LossMask,
        are_to_move: bool,
    ) -> Losses
        requires kept { AreKept (states_in node_table.now).up (states_in node_table.now).draining self.now.homes self.now.losses }
        requires stands { (n : AnyNode) → list_any (sits_on n) self.now.homes ≡ true → (states_in node_table.now).on n stripe ≡ true }
        ensures code { result.code ≡ self.now.losses.code }
        ensures homeless { result.homeless ≡ self.now.losses.homeless }
        ensures missing { result.missing ≡ (renewed (states_in node_table.now).up self.now.homes self.now.losses).missing }
        ensures needs { (f : ℕ) → bits_set result.needs.bits f ≡ (if bits_set fragments.bits f then are_to_move else bits_set self.now.losses.needs.bits f) }
    {
        let mut losses = self.losses_up(node_table, stripe);
        losses.needs = masks::put(losses.needs, fragments, are_to_move);
        losses
    }

    /// Whether one of the homes is on the seat.
    pub(crate) fn holds(&self, seat: Seat) -> bool
        ensures { result ≡ list_any (is_on_seat seat) self.now.homes }
    {
        self.homes.all().iter().any(|home| *home == Some(seat))
    }
}

/// The fragments of a stripe of the code with these homes that are missing by the nodes that are up.
fn missing_of(code: Code, homes: &Homes, node_table: &NodeTable) -> LossMask
    requires { length homes.now ≡ 16 }
    ensures { result.bits ≡ bits_of code (missing_of code (states_in node_table.now).up homes.now) }
{
    let present = present_of(homes, node_table);
    LossMask::from_bits(LossMask::all_of(code).bits & !present.bits)
}

/// The fragments with a home on a node that is up.
fn present_of(homes: &Homes, node_table: &NodeTable) -> LossMask
    requires { length homes.now ≡ 16 }
    ensures { (f : ℕ) → bits_set result.bits f ≡ (nat_lt f 16 && not (is_missing (states_in node_table.now).up (get_or homes.now f None))) }
{
    homes.fragments_where(node_table.up())
}
