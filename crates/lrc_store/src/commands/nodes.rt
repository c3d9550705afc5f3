//! Commands on nodes.

ghost use Rattle.std.specs.Prelude.{◌≡◌, ◌&&◌, true, false, not, IsSome};
ghost use Rattle.lrc_topology.specs.Nodes.{node_at};
ghost use Rattle.lrc_slots.specs.Slots.{with_eligible};
ghost use Rattle.lrc_slots.specs.Tables.{slots_of};
ghost use Rattle.lrc_terms.specs.Modes.{is_active};
ghost use Rattle.lrc_stripes.specs.Stored.{with_state};
ghost use Rattle.lrc_stripes.specs.Tables.{stored_in};
ghost use Rattle.lrc_rules.specs.declared.reply.Reply.TheVariants.{Changed};
ghost use Rattle.lrc_code.specs.declared.numbers.NodeNo.{NodeNo as AnyNode};
ghost use Rattle.lrc_rules.specs.States.{State, has_number, mode_of, is_down};
ghost use Rattle.lrc_rules.specs.declared.node_command.NodeCommand.TheVariants.{Retire};
ghost use Rattle.lrc_rules.specs.Steps.{emptied, emptied_if, is_wrong_on, with_mode, changed_on, last_on, node_outcome};
ghost use Rattle.lrc_rules.specs.Changes.{without_targets};
ghost use Rattle.lrc_answers.specs.Answers.{told};
ghost use Rattle.lrc_store.specs.Stores.{IsOf, IsTied};

use crate::store::Store;
use lrc_answers::Answer;
use lrc_code::{NodeNo, StripeNo};
use lrc_rules::{Mode, NodeCommand, Refusal};

impl Store {
    /// The reply to a command on a node.
    #[inline(never)]
    pub(crate) fn node_reply(&self, command: NodeCommand, node: NodeNo) -> Answer
        requires { IsTied self.now }
        ensures { (st : State) → IsOf st self.now → told result ≡ (node_outcome self.now.topology st command node).0 }
    {
        if self.table.node(node).is_none() {
            return Answer::Refused(Refusal::UnknownNode);
        }
        if self.forbid(command, node) {
            return Answer::Refused(Refusal::WrongMode);
        }
        match command {
            NodeCommand::Retire => self.reply_if_empty(node),
            _ => Answer::Changed,
        }
    }

    /// Whether a command is wrong for the state of a node of the store.
    fn forbid(&self, command: NodeCommand, node: NodeNo) -> bool
        ensures { (st : State) → IsOf st self.now → IsSome (node_at self.now.topology node) → result ≡ is_wrong_on command st node }
    {
        is_wrong_for(command, self.mode(node), self.is_down(node))
    }

    /// The mode of a node of the store.
    pub fn mode(&self, node: NodeNo) -> Mode
        ensures { (st : State) → IsOf st self.now → IsSome (node_at self.now.topology node) → result ≡ mode_of st node }
    {
        self.stripes.mode(node).unwrap_or(Mode::Gone)
    }

    /// Whether a node of the store is down.
    pub fn is_down(&self, node: NodeNo) -> bool
        ensures { (st : State) → IsOf st self.now → IsSome (node_at self.now.topology node) → result ≡ is_down st node }
    {
        self.stripes.is_down(node)
    }

    /// The reply to the command that retires a node: refused where seats are on it.
    fn reply_if_empty(&self, node: NodeNo) -> Answer
        requires tied { IsTied self.now }
        requires known { IsSome (node_at self.now.topology node) }
        ensures { (st : State) → IsOf st self.now → told result ≡ (last_on Retire st node).0 }
    {
        let load = self.table.load(node);
        if load > 0 {
            return Answer::Refused(Refusal::NotEmpty(load));
        }
        Answer::Changed
    }

    /// Makes the change of a command on a node.
    pub(crate) fn change_node(&mut self, command: NodeCommand, node: NodeNo)
        ghost st: { State }
        requires kept { IsOf st self.old }
        requires told { (node_outcome self.old.topology st command node).0 ≡ Changed }
        ensures nodes { self.new.topology ≡ self.old.topology }
        ensures kept { IsOf (changed_on command st node) self.new }
    {
        self.empty_if_failed(command, node);
        let was_down = self.stripes.is_down(node);
        let (mode, is_down) = next_state(command, self.mode(node), was_down);
        self.set_state(node, mode, is_down);
    }

    /// Sets the mode of a node, and whether it is down. The seats on it stay.
    pub fn set_state(&mut self, node: NodeNo, mode: Mode, is_down: bool)
        requires tied { IsTied self.old }
        requires known { IsSome (node_at self.old.topology node) }
        ensures rest { self.new ≡ record self.old { table = self.new.table; stripes = self.new.stripes } }
        ensures table { slots_of self.new.table ≡ with_eligible (slots_of self.old.table) node (is_active mode && not is_down) }
        ensures stripes { stored_in self.new.stripes ≡ with_state (stored_in self.old.stripes) node mode is_down }
    {
        let is_eligible = mode.is_active() && !is_down;
        self.table.set_eligible(node, is_eligible);
        self.stripes.set_state(node, mode, is_down);
    }

    /// Empties the node, if the command is that it failed.
    fn empty_if_failed(&mut self, command: NodeCommand, node: NodeNo)
        ghost st: { State }
        requires kept { IsOf st self.old }
        requires known { IsSome (node_at self.old.topology node) }
        ensures nodes { self.new.topology ≡ self.old.topology }
        ensures kept { IsOf (emptied_if command st node) self.new }
    {
        if let NodeCommand::Fail = command {
            self.empty(node);
        }
    }

    /// Removes the homes on a node and the leases of their fragments or with a target there, and frees their seats.
    fn empty(&mut self, node: NodeNo)
        ghost st: { State }
        requires kept { IsOf st self.old }
        requires known { IsSome (node_at self.old.topology node) }
        ensures nodes { self.new.topology ≡ self.old.topology }
        ensures kept { IsOf (emptied st node) self.new }
    {
        self.end_targets(node);
        self.clear_homes(node);
    }

    /// Ends the leases whose target is on a node.
    fn end_targets(&mut self, node: NodeNo)
        ghost st: { State }
        requires kept { IsOf st self.old }
        requires known { IsSome (node_at self.old.topology node) }
        ensures nodes { self.new.topology ≡ self.old.topology }
        ensures kept { IsOf (without_targets st node) self.new }
    {
        while let Some(lease) = self.leases.targets_on(node).next() {
            self.end_lease(lease.stripe, lease.fragment);
        }
    }

    /// Clears the homes on a node on which no target is, and ends the leases of their fragments.
    fn clear_homes(&mut self, node: NodeNo)
        ghost st: { State }
        requires kept { IsOf (without_targets st node) self.old }
        requires known { IsSome (node_at self.old.topology node) }
        ensures nodes { self.new.topology ≡ self.old.topology }
        ensures kept { IsOf (emptied st node) self.new }
    {
        let mut from = StripeNo { value: 0 };
        while let Some((stripe, fragment)) = self.stripes.homes_on_from(node, from).next() {
            self.end_lease(stripe, fragment);
            self.clear_home(stripe, fragment);
            from = stripe;
        }
    }
}

/// Whether a command is wrong for a node of this mode that is down or not.
fn is_wrong_for(command: NodeCommand, mode: Mode, was_down: bool) -> bool
    ensures { (st : State) (n : AnyNode) → mode ≡ mode_of st n → was_down ≡ is_down st n → result ≡ is_wrong_on command st n }
{
    match command {
        NodeCommand::Fail => mode.is_gone(),
        NodeCommand::Down => mode.is_gone() || was_down,
        NodeCommand::Up => !was_down,
        NodeCommand::Drain => !mode.is_active(),
        NodeCommand::Undrain => !mode.is_draining(),
        NodeCommand::Retire => !mode.is_draining(),
        NodeCommand::Join => !mode.is_gone(),
    }
}

/// The mode that a command gives a node, and whether it leaves it down.
fn next_state(command: NodeCommand, mode: Mode, was_down: bool) -> (Mode, bool)
    ensures { (st : State) (n : AnyNode) → mode ≡ mode_of st n → was_down ≡ is_down st n → is_wrong_on command st n ≡ false
        → (has_number st.gone n ≡ true → has_number st.draining n ≡ false)
        → (result.0 ≡ mode_of (with_mode command st n) n) × (result.1 ≡ is_down (with_mode command st n) n) }
{
    match command {
        NodeCommand::Fail => (Mode::Gone, false),
        NodeCommand::Retire => (Mode::Gone, false),
        NodeCommand::Down => (mode, true),
        NodeCommand::Up => (mode, false),
        NodeCommand::Drain => (Mode::Draining, was_down),
        NodeCommand::Undrain => (Mode::Active, was_down),
        NodeCommand::Join => (Mode::Active, was_down),
    }
}
