//! The command that asks for the most urgent repair.

ghost use Rattle.std.specs.Prelude.{◌≡◌, List, IsTrue, IfSome, find, is_some, option_map};
ghost use Rattle.std.specs.List.{All};
ghost use Rattle.lrc_code.specs.Codes.{fragments, all_fragments};
ghost use Rattle.lrc_code.specs.Losses.{bits_set};
ghost use Rattle.lrc_stripes.specs.Tables.{stored_in};
ghost use Rattle.lrc_rules.specs.declared.entry.Entry.{Entry};
ghost use Rattle.lrc_rules.specs.States.{State};
ghost use Rattle.lrc_rules.specs.Urgency.{is_grantable, next_of};
ghost use Rattle.lrc_rules.specs.Leases.{next_outcome};
ghost use Rattle.lrc_answers.specs.Answers.{told};
ghost use Rattle.lrc_store.specs.Stores.{IsOf, IsTied, AreGrantsOf, AreFew};
ghost use Rattle.lrc_store.specs.Repairing.{is_waiting, fragment_of, IsRepair, IsRepairCursor, HasRepairCursor, HaveGrantable};

use crate::cursor::RepairCursor;
use crate::repair::Repair;
use crate::store::Store;
use lrc_answers::Answer;
use lrc_code::{Fragment, LossMask, SessionNo, StripeNo};
use lrc_leases::Grants;
use lrc_stripes::{Work, first_fragment};

impl Store {
    #[inline(always)] // a step without work then makes no call here
    pub(crate) fn next_reply(
        &self,
        counts: &Grants,
        cursor: RepairCursor,
        session: SessionNo,
    ) -> Answer
        requires few { AreFew counts.now }
        requires cursor { HasRepairCursor self.now cursor }
        ensures { (st : State) (past : List Entry) → IsOf st self.now → AreGrantsOf past counts.now → IsRepairCursor self.now.topology st cursor
            → told result ≡ (next_outcome self.now.topology past st session).0 }
    {
        if let RepairCursor::End = cursor {
            return Answer::Idle;
        }
        if !self.stripes.has_work() {
            return Answer::Idle;
        }
        self.next_reply_with_work(counts, cursor, session)
    }

    /// The same. Some stripe has work.
    #[inline(never)]
    fn next_reply_with_work(
        &self,
        counts: &Grants,
        cursor: RepairCursor,
        session: SessionNo,
    ) -> Answer
        requires few { AreFew counts.now }
        requires cursor { HasRepairCursor self.now cursor }
        ensures { (st : State) (past : List Entry) → IsOf st self.now → AreGrantsOf past counts.now → IsRepairCursor self.now.topology st cursor
            → told result ≡ (next_outcome self.now.topology past st session).0 }
    {
        match self.next_repair(cursor) {
            Some(repair) => repair.granted_to(session, counts, self.clock),
            None => Answer::Idle,
        }
    }

    /// Returns the first repair, in the order of repair, whose lease would be granted.
    fn next_repair(&self, cursor: RepairCursor) -> Option<Repair>
        requires { HasRepairCursor self.now cursor }
        ensures first { (st : State) → IsOf st self.now → IsRepairCursor self.now.topology st cursor → option_map fragment_of result ≡ next_of self.now.topology st }
        ensures repair { IfSome result (λ r. (st : State) → IsOf st self.now → IsRepair self.now.topology st r) }
    {
        if !self.has_free_seat() {
            return None;
        }
        for stripe in self.work_from(cursor) {
            if let Some(repair) = self.first_repair(stripe) {
                return Some(repair);
            }
        }
        None
    }

    /// Returns the stripes with work from the cursor on, in the order of repair; all of them if there is no cursor.
    fn work_from(&self, cursor: RepairCursor) -> Work<'_>
        requires { HasRepairCursor self.now cursor }
        ensures there { All (λ s. IsTrue ((stored_in self.now.stripes).stripes s)) result }
        ensures all { (st : State) → IsOf st self.now → IsRepairCursor self.now.topology st cursor → HaveGrantable self.now.topology st result }
    {
        match cursor {
            RepairCursor::At(first) => self.stripes.work_from(first),
            RepairCursor::First | RepairCursor::End => self.stripes.work(),
        }
    }

    /// Returns the first repair in a stripe whose lease would be granted. The stripe must exist.
    fn first_repair(&self, stripe: StripeNo) -> Option<Repair>
        requires tied { IsTied self.now }
        requires there { IsTrue ((stored_in self.now.stripes).stripes stripe) }
        ensures first { (st : State) → IsOf st self.now → option_map fragment_of result
            ≡ option_map (λ f. (stripe, f)) (find (λ f. is_grantable self.now.topology st (stripe, f)) all_fragments) }
        ensures repair { IfSome result (λ r. (st : State) → IsOf st self.now → IsRepair self.now.topology st r) }
    {
        let waiting = self.waiting(stripe);
        let mut left = waiting;
        while let Some(fragment) = first_fragment(left) {
            if let Some(repair) = self.waiting_repair(waiting, stripe, fragment) {
                return Some(repair);
            }
            left = left.without(fragment);
        }
        None
    }

    /// Returns the repair of a fragment if its lease would be granted. `waiting` are the waiting fragments of the stripe,
    /// which must exist.
    pub fn waiting_repair(
        &self,
        waiting: LossMask,
        stripe: StripeNo,
        fragment: Fragment,
    ) -> Option<Repair>
        requires tied { IsTied self.now }
        requires there { IsTrue ((stored_in self.now.stripes).stripes stripe) }
        requires waiting { (st : State) → IsOf st self.now → bits_set waiting.bits fragment.value ≡ is_waiting self.now.topology st stripe fragment }
        ensures grantable { (st : State) → IsOf st self.now → is_some result ≡ is_grantable self.now.topology st (stripe, fragment) }
        ensures own { IfSome result (λ r. fragment_of r ≡ (stripe, fragment)) }
        ensures repair { IfSome result (λ r. (st : State) → IsOf st self.now → IsRepair self.now.topology st r) }
    {
        if !waiting.contains(fragment) {
            return None;
        }
        match self.repair(stripe, fragment) {
            Ok(repair) => Some(repair),
            Err(_) => None,
        }
    }

    /// Returns the fragments of a stripe that need a lease and have none. The stripe must exist.
    pub fn waiting(&self, stripe: StripeNo) -> LossMask
        requires { IsTrue ((stored_in self.now.stripes).stripes stripe) }
        ensures { (st : State) (f : Fragment) → IsOf st self.now
            → bits_set result.bits f.value ≡ is_waiting self.now.topology st stripe f }
    {
        let needing = self.needs(stripe);
        let leased = self.leases.leased(stripe);
        LossMask::from_bits(needing.bits & !leased.bits)
    }
}
