//! The command that counts a tick of the clock.

ghost use Rattle.std.specs.Prelude.{◌≡◌, ◌+◌, ◌<◌, count_by};
ghost use Rattle.lrc_terms.specs.Leased.{ends_at};
ghost use Rattle.lrc_rules.specs.States.{State};
ghost use Rattle.lrc_rules.specs.Leases.{ticked, without_ending, tick_outcome};
ghost use Rattle.lrc_answers.specs.Answers.{told};
ghost use Rattle.lrc_store.specs.Stores.{IsOf, IsTied};

use crate::store::Store;
use lrc_answers::Answer;

impl Store {
    /// Reports the number of ticks with the next one, and of the leases that end at it.
    #[inline(never)]
    pub(crate) fn tick_reply(&self) -> Answer
        requires { IsTied self.now }
        ensures { (st : State) → IsOf st self.now → told result ≡ (tick_outcome st).0 }
    {
        let clock = self.clock.next();
        let mut ended = 0;
        for _lease in self.leases.ending_at(clock) {
            ended += 1;
        }
        Answer::Ticked { clock, ended }
    }

    /// Ends the leases that end at the next tick, of which there are `ended`, and counts the tick.
    pub(crate) fn tick(&mut self, ended: u32)
        ghost st: { State }
        requires kept { IsOf st self.old }
        requires early { self.old.clock.value < 4294967292 }
        requires told { ended ≡ count_by (ends_at (st.clock + 1)) st.leases }
        ensures nodes { self.new.topology ≡ self.old.topology }
        ensures kept { IsOf (ticked st) self.new }
    {
        self.end_due(ended);
        self.clock.advance();
    }

    /// Ends the leases that end at the next tick, of which there are `ended`, and frees their targets.
    fn end_due(&mut self, ended: u32)
        ghost st: { State }
        requires kept { IsOf st self.old }
        requires told { ended ≡ count_by (ends_at (st.clock + 1)) st.leases }
        ensures nodes { self.new.topology ≡ self.old.topology }
        ensures clock { self.new.clock ≡ self.old.clock }
        ensures kept { IsOf (without_ending st (st.clock + 1)) self.new }
    {
        let clock = self.clock.next();
        for _ in 0..ended {
            if let Some(lease) = self.leases.ending_at(clock).next() {
                self.end_lease(lease.stripe, lease.fragment);
            }
        }
    }
}
