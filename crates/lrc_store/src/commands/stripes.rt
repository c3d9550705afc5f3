//! Commands on stripes.

ghost use Rattle.std.specs.Prelude.{◌≡◌, true, false, take, IsSome, OnOk, IfErr};
ghost use Rattle.lrc_code.specs.declared.codes.Code.TheVariants.{Wide};
ghost use Rattle.lrc_code.specs.Codes.{fragments, fragment_count, all_fragments};
ghost use Rattle.lrc_slots.specs.Tables.{slots_of};
ghost use Rattle.lrc_rules.specs.declared.reply.Reply.TheVariants.{Dropped};
ghost use Rattle.lrc_answers.specs.Answers.{told};
ghost use Rattle.lrc_rules.specs.States.{State, has_stripe};
ghost use Rattle.lrc_rules.specs.Choices.{AreChosen, IsFirstWithout};
ghost use Rattle.lrc_rules.specs.Steps.{with_stripe, placed_reply, place_outcome, drop_outcome, without_stripe};
ghost use Rattle.lrc_rules.specs.Changes.{with_placed};
ghost use Rattle.lrc_store.specs.Dropping.{unleased, homeless};
ghost use Rattle.lrc_store.specs.Stores.{IsOf};
ghost use Rattle.lrc_bars.specs.Ties.{kept_table};

use crate::store::Store;
use lrc_answers::{Answer, NO_SEAT};
use lrc_bars::ClassBars;
use lrc_code::{Code, FRAGMENTS, Fragment, NARROW_FRAGMENTS, StripeNo};
use lrc_rules::{Refusal, Reply, Seat};

impl Store {
    pub(crate) fn place_reply(&self, code: Code, stripe: StripeNo) -> Reply
        ensures { (st : State) → IsOf st self.now → result ≡ (place_outcome self.now.topology st code stripe).0 }
    {
        if self.stripes.contains(stripe) {
            return Reply::Refused(Refusal::StripeExists);
        }
        let mut seats = [NO_SEAT; FRAGMENTS];
        match self.plan_seats(code, stripe, &mut seats) {
            Ok(()) => match code {
                Code::Wide => Reply::Placed(seats),
                Code::Narrow => {
                    let mut first = [NO_SEAT; NARROW_FRAGMENTS];
                    first.copy_from_slice(&seats[..NARROW_FRAGMENTS]);
                    Reply::Placed6(first)
                }
            },
            Err(fragment) => Reply::Refused(Refusal::NoLawfulNode(fragment)),
        }
    }

    /// The same as the history keeps it, with its seats in the box `room`.
    #[inline(never)]
    pub(crate) fn place_answer(
        &self,
        code: Code,
        stripe: StripeNo,
        room: &mut Option<Box<[Seat; FRAGMENTS]>>,
    ) -> Answer
        requires { IsSome room.old }
        ensures { (st : State) → IsOf st self.now → told result ≡ (place_outcome self.now.topology st code stripe).0 }
    {
        Answer::of(&self.place_reply(code, stripe), room)
    }

    /// Chooses the seats of a new stripe by the rule, one fragment after the other, and writes them to the first of `seats`.
    /// Returns the first fragment that finds none, if there is one.
    fn plan_seats(
        &self,
        code: Code,
        stripe: StripeNo,
        seats: &mut [Seat; FRAGMENTS],
    ) -> Result<(), Fragment>
        ensures chosen { OnOk result ((st : State) → IsOf st self.now → has_stripe st stripe ≡ false
            → AreChosen self.now.topology (with_stripe st code stripe) stripe (fragments code) (take (fragment_count code) seats.new)) }
        ensures first { IfErr result (λ f. (st : State) → IsOf st self.now → has_stripe st stripe ≡ false
            → IsFirstWithout self.now.topology (with_stripe st code stripe) stripe (fragments code) f) }
    {
        let mut bars = ClassBars::new();
        self.bar_upgrading_for_all(&mut bars);
        let all = Fragment::all();
        for (i, fragment) in all[..code.fragments() as usize].iter().enumerate() {
            let class = fragment.class_in(code).unwrap();
            match self.open_for(&bars, class) {
                Some(next) => {
                    self.bar_planned(&mut bars, class, &next);
                    seats[i] = Seat {
                        node: next.node.number,
                        slot: next.slot,
                    };
                }
                None => return Err(*fragment),
            }
        }
        Ok(())
    }

    /// Takes the seats that were chosen for a new stripe, and adds the stripe with these homes.
    pub(crate) fn place(&mut self, code: Code, stripe: StripeNo, seats: &[Seat])
        ghost st: { State }
        requires kept { IsOf st self.old }
        requires told { (place_outcome self.old.topology st code stripe).0 ≡ placed_reply code seats.now }
        ensures nodes { self.new.topology ≡ self.old.topology }
        ensures kept { IsOf (with_placed st code stripe seats.now) self.new }
    {
        for seat in seats.iter() {
            self.table.take_slot(seat.node, seat.slot);
        }
        self.stripes.add_with_homes(code, stripe, seats);
    }

    #[tactic(auto, unfolding(lrc_rules::specs::Steps::drop_outcome))]
    #[inline(never)]
    pub(crate) fn drop_reply(&self, stripe: StripeNo) -> Answer
        ensures { (st : State) → IsOf st self.now → told result ≡ (drop_outcome st stripe).0 }
    {
        if self.stripes.contains(stripe) {
            Answer::Dropped
        } else {
            Answer::Refused(Refusal::UnknownStripe)
        }
    }

    /// Removes a stripe, and frees the seats of its homes and of its leases.
    pub(crate) fn drop_stripe(&mut self, stripe: StripeNo)
        ghost st: { State }
        requires kept { IsOf st self.old }
        requires told { (drop_outcome st stripe).0 ≡ Dropped }
        ensures nodes { self.new.topology ≡ self.old.topology }
        ensures kept { IsOf (without_stripe st stripe) self.new }
    {
        self.end_leases(stripe);
        self.free_homes(stripe);
        self.stripes.remove(stripe);
    }

    /// Ends the leases of a stripe's fragments, and frees their targets.
    fn end_leases(&mut self, stripe: StripeNo)
        ghost st: { State }
        requires { IsOf st self.old }
        ensures nodes { self.new.topology ≡ self.old.topology }
        ensures kept { IsOf (unleased st stripe all_fragments) self.new }
    {
        if self.leases.leased(stripe).bits() == 0 {
            return;
        }
        for fragment in Fragment::all().iter() {
            self.end_lease(stripe, *fragment);
        }
    }

    /// Frees the seats of a stripe's homes. The stripe and its homes are removed after it.
    fn free_homes(&mut self, stripe: StripeNo)
        ghost st: { State }
        requires kept { IsOf st self.old }
        requires there { has_stripe st stripe ≡ true }
        ensures rest { self.new ≡ record self.old { table = self.new.table } }
        ensures table { slots_of self.new.table ≡ kept_table self.old.topology (homeless st stripe all_fragments) }
    {
        for fragment in Fragment::all().iter() {
            if let Some(seat) = self.stripes.home(stripe, *fragment) {
                self.table.free(seat.node, seat.slot);
            }
        }
    }
}
