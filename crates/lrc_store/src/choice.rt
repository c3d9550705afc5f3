//! The choice of a seat, from the slot table and the seats of the stripe's other fragments.

ghost use Rattle.std.specs.Prelude.{◌≡◌, ◌++◌, ◌∷◌, [], true, false, IsTrue, IfSome, List, Some, map, option_map, is_some};
ghost use Rattle.std.specs.List.{All, list_any};
ghost use Rattle.lrc_code.specs.declared.codes.Code.{Code as AnyCode};
ghost use Rattle.lrc_code.specs.declared.numbers.StripeNo.{StripeNo};
ghost use Rattle.lrc_code.specs.declared.numbers.Fragment.{Fragment};
ghost use Rattle.lrc_code.specs.Codes.{class_of};
ghost use Rattle.lrc_topology.specs.declared.seat.Held.{Held};
ghost use Rattle.lrc_topology.specs.Nodes.{node_at};
ghost use Rattle.lrc_slots.specs.Barred.{no_bars, joined};
ghost use Rattle.lrc_slots.specs.Next.{next_number};
ghost use Rattle.lrc_slots.specs.Tables.{slots_of, barred};
ghost use Rattle.lrc_stripes.specs.Tables.{stored_in};
ghost use Rattle.lrc_rules.specs.States.{State, has_stripe, held_by, seats_of};
ghost use Rattle.lrc_rules.specs.Placement.{chosen, bars, is_beside};
ghost use Rattle.lrc_rules.specs.Steps.{with_stripe};
ghost use Rattle.lrc_bars.specs.Ties.{table_of, bars_in, next_seat, with_homes, closed, AreClassMembers};
ghost use Rattle.lrc_store.specs.Stores.{IsOf, IsTied};
ghost use Rattle.lrc_bars.specs.Planning.{AreBarsOf, row_seat};
ghost use Rattle.lrc_bars.specs.Neighbouring.{barred_by, seats_bar};

use crate::store::Store;
use lrc_bars::{ClassBars, Neighbours, OtherSeats};
use lrc_code::{Class, Code, Fragment, LossMask, StripeNo};
use lrc_rules::Seat;
use lrc_slots::{BarredDomains, Barring, OpenRow};
use lrc_topology::NodeInfo;

impl Store {
    /// Bars the upgrading domain, if there is one, for all fragments of a new stripe.
    pub(crate) fn bar_upgrading_for_all(&self, bars: &mut ClassBars)
        ensures { (st : State) (code : AnyCode) → IsOf st self.now → AreBarsOf self.now.topology code None [] bars.old → AreBarsOf self.now.topology code st.upgrading [] bars.new }
    {
        if let Some(domain) = self.upgrading {
            self.table.bar_upgrade_in(&mut bars.faults, domain);
        }
    }

    /// Returns the seat that the rule chooses for a fragment of a new stripe. `bars` are the nodes that the seats planned for
    /// the other fragments bar.
    pub(crate) fn open_for(&self, bars: &ClassBars, class: Class) -> Option<OpenRow<'_>>
        ensures chosen { (st : State) (code : AnyCode) (stripe : StripeNo) (fragment : Fragment) (planned : List Held) → IsOf st self.now → has_stripe st stripe ≡ false
            → class_of code fragment.value ≡ Some class
            → All (λ h. is_beside stripe fragment h ≡ true) planned → AreBarsOf self.now.topology code st.upgrading planned bars.now
            → option_map row_seat result ≡ chosen self.now.topology (with_homes (with_stripe st code stripe) planned) stripe fragment }
        ensures known { (st : State) (code : AnyCode) (planned : List Held) → IsOf st self.now → AreBarsOf self.now.topology code st.upgrading planned bars.now
            → IfSome result (λ o. node_at self.now.topology o.node.now.number ≡ Some o.node.now) }
    {
        self.table.row_outside(&bars.faults, bars.of(class))
    }

    /// Bars the domains of the node where a fragment of the class is planned.
    pub(crate) fn bar_planned(&self, bars: &mut ClassBars, class: Class, next: &OpenRow<'_>)
        ensures { (st : State) (code : AnyCode) (stripe : StripeNo) (fragment : Fragment) (planned : List Held) → IsOf st self.now
            → class_of code fragment.value ≡ Some class
            → node_at self.now.topology next.now.node.now.number ≡ Some next.now.node.now → AreBarsOf self.now.topology code st.upgrading planned bars.old
            → AreBarsOf self.now.topology code st.upgrading (planned ++ record { stripe = stripe; fragment = fragment; seat = row_seat next.now } ∷ []) bars.new }
    {
        bars.bar(&self.table, next.node, class);
    }

    /// Whether some node takes a seat, where no domain is barred but the upgrading one.
    pub(crate) fn has_free_seat(&self) -> bool
        ensures { (st : State) → IsOf st self.now → result ≡ is_some (next_number (table_of self.now.topology st) no_bars) }
    {
        if self.upgrading.is_none() {
            return self.table.has_open_node();
        }
        let mut bars = BarredDomains::new();
        self.bar_upgrading(&mut bars);
        self.table.open_beside(&bars).is_some()
    }

    /// The seat that the rule chooses for a fragment of a stripe that is there.
    pub(crate) fn repair_seat(&self, stripe: StripeNo, fragment: Fragment) -> Option<Seat>
        requires tied { IsTied self.now }
        requires there { IsTrue ((stored_in self.now.stripes).stripes stripe) }
        ensures { (st : State) → IsOf st self.now → result ≡ chosen self.now.topology st stripe fragment }
    {
        let members = class_members(self.code_of(stripe), fragment);
        let mut more = BarredDomains::new();
        self.bar_upgrading(&mut more);
        self.next_beside(&self.neighbours(stripe, fragment, members, &more))
    }

    /// Whether the seats of a stripe's other fragments rule a node out for a fragment. The stripe must be there.
    pub fn rules_out(&self, stripe: StripeNo, fragment: Fragment, node: &NodeInfo) -> bool
        requires tied { IsTied self.now }
        requires there { IsTrue ((stored_in self.now.stripes).stripes stripe) }
        ensures { (st : State) → IsOf st self.now → result ≡ list_any (bars self.now.topology st stripe fragment node.now) (seats_of st) }
    {
        let members = class_members(self.code_of(stripe), fragment);
        let no_more = BarredDomains::new();
        self.neighbours(stripe, fragment, members, &no_more)
            .bars(node)
    }

    /// Bars the upgrading domain too, if there is one.
    fn bar_upgrading(&self, bars: &mut BarredDomains)
        ensures { (st : State) → IsOf st self.now → barred bars.new ≡ closed st.upgrading (barred bars.old) }
    {
        if let Some(domain) = self.upgrading {
            bars.bar_upgrade(domain);
        }
    }

    /// The least free slot of the next node of the table outside these domains.
    fn next_beside(&self, neighbours: &Neighbours<'_>) -> Option<Seat>
        ensures { result ≡ next_seat (slots_of self.now.table) (barred_by neighbours.now) }
    {
        let next = self.table.open_beside(neighbours)?;
        Some(Seat {
            node: next.node.number,
            slot: next.slot,
        })
    }

    /// Collects what bars nodes for a fragment: the homes of the stripe's other fragments, the targets of their leases, and
    /// `more`. `members` are the fragments of its class.
    #[inline(always)] // so that nothing is copied
    fn neighbours<'a>(
        &'a self,
        stripe: StripeNo,
        fragment: Fragment,
        members: LossMask,
        more: &'a BarredDomains,
    ) -> Neighbours<'a>
        requires tied { IsTied self.now }
        requires there { IsTrue ((stored_in self.now.stripes).stripes stripe) }
        ensures { (st : State) (code : AnyCode) → IsOf st self.now → AreClassMembers code fragment members
            → barred_by result ≡ joined (joined (barred more.now) (bars_in self.now.topology code stripe fragment (map held_by st.leases))) (bars_in self.now.topology code stripe fragment st.homes) }
    {
        Neighbours {
            homes: self.other_homes(stripe, fragment, members),
            targets: self.other_targets(stripe, fragment, members),
            more,
        }
    }

    /// The homes of the stripe's other fragments. `members` are the fragments of the class of `fragment`.
    #[inline(always)] // likewise
    fn other_homes(&self, stripe: StripeNo, fragment: Fragment, members: LossMask) -> OtherSeats<'_>
        requires { IsTrue ((stored_in self.now.stripes).stripes stripe) }
        ensures { (st : State) (code : AnyCode) → IsOf st self.now → AreClassMembers code fragment members
            → seats_bar result ≡ bars_in self.now.topology code stripe fragment st.homes }
    {
        let others = self.stripes.homed(stripe).without(fragment);
        OtherSeats {
            domains: self.stripes.domains(stripe),
            others,
            members: LossMask::from_bits(others.bits & members.bits),
        }
    }

    /// The targets of the leases of the stripe's other fragments. `members` are the fragments of the class of `fragment`.
    #[inline(always)] // likewise
    fn other_targets(
        &self,
        stripe: StripeNo,
        fragment: Fragment,
        members: LossMask,
    ) -> OtherSeats<'_>
        requires { IsTied self.now }
        ensures { (st : State) (code : AnyCode) → IsOf st self.now → AreClassMembers code fragment members
            → seats_bar result ≡ bars_in self.now.topology code stripe fragment (map held_by st.leases) }
    {
        let others = self.leases.leased(stripe).without(fragment);
        OtherSeats {
            domains: &self.target_domains[stripe.value as usize],
            others,
            members: LossMask::from_bits(others.bits & members.bits),
        }
    }
}

/// Returns the fragments of a fragment's class, itself included; none if the code has no such fragment.
#[inline(always)] // as `neighbours`
fn class_members(code: Code, fragment: Fragment) -> LossMask
    ensures { AreClassMembers code fragment result }
{
    match fragment.class_in(code) {
        Some(class) => LossMask::of_class(code, class),
        None => LossMask::from_bits(0),
    }
}
