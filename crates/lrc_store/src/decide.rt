//! The answer to each command, and its change.

ghost use Rattle.std.specs.Prelude.{◌≡◌, ◌≢◌, ◌<◌, true, false, IsSome, List};
ghost use Rattle.lrc_code.specs.declared.numbers.SessionNo.{SessionNo};
ghost use Rattle.lrc_terms.specs.declared.lease.Lease.{Lease};
ghost use Rattle.lrc_rules.specs.declared.kind.Kind.{Kind};
ghost use Rattle.lrc_answers.specs.declared.answer.Answer.TheVariants.{Granted};
ghost use Rattle.lrc_rules.specs.declared.entry.Entry.{Entry};
ghost use Rattle.lrc_rules.specs.States.{State};
ghost use Rattle.lrc_rules.specs.Steps.{step};
ghost use Rattle.lrc_answers.specs.Answers.{told, is_place};
ghost use Rattle.lrc_rules.specs.Changes.{IsAnswer, changed_by, grants_lease};
ghost use Rattle.lrc_store.specs.Stores.{IsOf, IsTied, AreGrantsOf, AreFew};
ghost use Rattle.lrc_store.specs.Repairing.{IsRepairCursor, HasRepairCursor};

use crate::cursor::RepairCursor;
use crate::store::Store;
use lrc_answers::Answer;
use lrc_code::{Code, FRAGMENTS, NARROW_FRAGMENTS, SessionNo};
use lrc_leases::Grants;
use lrc_rules::{Command, Entry, NodeCommand, Reply, Seat};

impl Store {
    /// Returns the reply to a command after entries with these grants. Requires the store of a
    /// state, and a repair cursor of that state.
    pub fn reply(
        &self,
        counts: &Grants,
        cursor: RepairCursor,
        session: SessionNo,
        command: &Command,
    ) -> Reply
        requires tied { IsTied self.now }
        requires few { AreFew counts.now }
        requires cursor { HasRepairCursor self.now cursor }
        ensures { (st : State) (past : List Entry) → IsOf st self.now → AreGrantsOf past counts.now → IsRepairCursor self.now.topology st cursor
            → result ≡ (step self.now.topology past st session command.now).0 }
    {
        match *command {
            Command::Place(stripe) => self.place_reply(Code::Wide, stripe),
            Command::Place6(stripe) => self.place_reply(Code::Narrow, stripe),
            _ => self
                .answer_to(counts, cursor, &mut None, session, command)
                .reply_ref()
                .reply(),
        }
    }

    /// Returns the answer to a command, as `reply`. Requires room for the seats of a stripe, if the
    /// command places one. Most arms are calls that are not inlined, so that a step saves fewer
    /// registers.
    #[inline(always)] // a `next` without work then makes no call
    pub fn answer_to(
        &self,
        counts: &Grants,
        cursor: RepairCursor,
        room: &mut Option<Box<[Seat; FRAGMENTS]>>,
        session: SessionNo,
        command: &Command,
    ) -> Answer
        requires tied { IsTied self.now }
        requires few { AreFew counts.now }
        requires cursor { HasRepairCursor self.now cursor }
        requires room { is_place command.now ≡ true → IsSome room.old }
        ensures { (st : State) (past : List Entry) → IsOf st self.now → AreGrantsOf past counts.now → IsRepairCursor self.now.topology st cursor
            → told result ≡ (step self.now.topology past st session command.now).0 }
    {
        match *command {
            Command::Place(stripe) => self.place_answer(Code::Wide, stripe, room),
            Command::Place6(stripe) => self.place_answer(Code::Narrow, stripe, room),
            Command::Drop(stripe) => self.drop_reply(stripe),
            Command::Lease(stripe, fragment) => {
                self.lease_reply(counts, session, stripe, fragment)
            }
            Command::Next => self.next_reply(counts, cursor, session),
            Command::Done(stripe, fragment, epoch) => {
                self.done_reply(session, stripe, fragment, epoch)
            }
            Command::Abandon(stripe, fragment, epoch) => {
                self.abandon_reply(session, stripe, fragment, epoch)
            }
            Command::Revoke(stripe, fragment) => self.revoke_reply(stripe, fragment),
            Command::Fail(node) => self.node_reply(NodeCommand::Fail, node),
            Command::Down(node) => self.node_reply(NodeCommand::Down, node),
            Command::Up(node) => self.node_reply(NodeCommand::Up, node),
            Command::Drain(node) => self.node_reply(NodeCommand::Drain, node),
            Command::Undrain(node) => self.node_reply(NodeCommand::Undrain, node),
            Command::Retire(node) => self.node_reply(NodeCommand::Retire, node),
            Command::Join(node) => self.node_reply(NodeCommand::Join, node),
            Command::Upgrade(domain) => self.upgrade_reply(domain),
            Command::Upgraded(domain) => self.upgraded_reply(domain),
            Command::Tick => self.tick_reply(),
        }
    }

    /// Makes the change of a command after any answer but a grant. Requires that the answer is the
    /// one in this state. Nothing fails. The store is then that of the state after the command.
    #[inline(always)] // so that the change itself is the only call
    pub fn make_change(&mut self, command: &Command, answer: &Answer)
        ghost st: { State }
        requires kept { IsOf st self.old }
        requires told { (past : List Entry) × (session : SessionNo) × ((step self.old.topology past st session command.now).0 ≡ told answer.now) }
        requires other { (lease : Lease) (kind : Kind) → answer.now ≢ Granted lease kind }
        requires early { self.old.clock.value < 4294967292 }
        ensures nodes { self.new.topology ≡ self.old.topology }
        ensures kept { (past : List Entry) (session : SessionNo) → (step self.old.topology past st session command.now).0 ≡ told answer.now
            → IsOf (step self.old.topology past st session command.now).1 self.new }
    {
        self.change_by(command, answer);
    }

    /// Makes the change that a command and its answer tell, as `make_change`.
    #[inline(never)] // a step that changes nothing then saves fewer registers
    fn change_by(&mut self, command: &Command, answer: &Answer)
        ghost st: { State }
        requires kept { IsOf st self.old }
        requires told { IsAnswer self.old.topology st command.now (told answer.now) }
        requires other { grants_lease command.now (told answer.now) ≡ false }
        requires early { self.old.clock.value < 4294967292 }
        ensures nodes { self.new.topology ≡ self.old.topology }
        ensures kept { IsOf (changed_by st command.now (told answer.now)) self.new }
    {
        match (*command, answer) {
            (Command::Place(stripe), Answer::Placed(seats)) => {
                self.place(Code::Wide, stripe, seats.as_slice())
            }
            (Command::Place6(stripe), Answer::Placed6(seats)) => {
                self.place(Code::Narrow, stripe, &seats[..NARROW_FRAGMENTS])
            }
            (Command::Drop(stripe), Answer::Dropped) => self.drop_stripe(stripe),
            (Command::Done(stripe, fragment, _), Answer::Ended) => self.move_in(stripe, fragment),
            (Command::Abandon(stripe, fragment, _), Answer::Ended) => {
                self.end_lease(stripe, fragment)
            }
            (Command::Revoke(stripe, fragment), Answer::Ended) => self.end_lease(stripe, fragment),
            (Command::Fail(node), Answer::Changed) => self.change_node(NodeCommand::Fail, node),
            (Command::Down(node), Answer::Changed) => self.change_node(NodeCommand::Down, node),
            (Command::Up(node), Answer::Changed) => self.change_node(NodeCommand::Up, node),
            (Command::Drain(node), Answer::Changed) => self.change_node(NodeCommand::Drain, node),
            (Command::Undrain(node), Answer::Changed) => self.change_node(
                NodeCommand::Undrain,
                node,
            ),
            (Command::Retire(node), Answer::Changed) => self.change_node(NodeCommand::Retire, node),
            (Command::Join(node), Answer::Changed) => self.change_node(NodeCommand::Join, node),
            (Command::Upgrade(domain), Answer::Changed) => self.upgrade(domain),
            (Command::Upgraded(domain), Answer::Changed) => self.upgraded(domain),
            (Command::Tick, Answer::Ticked { clock: _, ended }) => self.tick(*ended),
            _ => {}
        }
    }
}
