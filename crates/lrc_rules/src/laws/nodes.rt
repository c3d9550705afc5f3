//! Laws of the commands on nodes.

ghost use Rattle.std.specs.Prelude.{◌≡◌, ◌≢◌, ◌↔◌, ◌⊎◌, ◌||◌, not, ℕ, ◌≤◌, nat_lt, is_none, IsTrue, IsFalse, IsSome, List, All, Contains, Some, None};
ghost use Rattle.lrc_topology.specs.declared.NodeInfo.{NodeInfo};
ghost use Rattle.lrc_topology.specs.declared.seat.Seat.{Seat};
ghost use Rattle.lrc_topology.specs.declared.seat.Held.{Held};
ghost use Rattle.lrc_topology.specs.Nodes.{AreNodes, node_at};
ghost use Rattle.lrc_code.specs.declared.numbers.SessionNo.{SessionNo};
ghost use Rattle.lrc_code.specs.declared.numbers.NodeNo.{NodeNo};
ghost use Rattle.lrc_rules.specs.declared.entry.Entry.{Entry};
ghost use Rattle.lrc_rules.specs.declared.command.Command.{Command};
ghost use Rattle.lrc_rules.specs.declared.command.Command.TheVariants.{Fail, Down, Up, Drain, Undrain, Retire, Join};
ghost use Rattle.lrc_rules.specs.declared.reply.Reply.TheVariants.{Changed, Refused};
ghost use Rattle.lrc_rules.specs.declared.refusal.Refusal.TheVariants as refusal;
ghost use Rattle.lrc_terms.specs.declared.mode.Mode.TheVariants.{Active, Draining, Gone};
ghost use Rattle.lrc_terms.specs.declared.lease.Lease.{Lease as LeaseRecord};
ghost use Rattle.lrc_rules.specs.Endings.{IsOnNode};
ghost use Rattle.lrc_rules.specs.Steps.{emptied, with_gone, with_down, without_down, with_draining, without_draining, without_gone, step};
ghost use Rattle.lrc_rules.specs.Outcomes.{refuse_if};
ghost use Rattle.lrc_terms.specs.Modes.{is_active, is_draining, is_gone};
ghost use Rattle.lrc_rules.specs.States.{State, taken_seats, load, mode_of, is_down, online_at};
ghost use Rattle.lrc_rules.specs.Histories.{IsLegal, outcome_in, world_after, state_after};

/// A node is online exactly if the store has it, it is neither gone nor down, and its upgrade domain is not
/// upgrading.
pub fn online_in_words()
    ensures { (nodes : List NodeInfo) (st : State) (n : NodeNo)
        → IsTrue (online_at nodes st n)
        ↔ ((m : NodeInfo) × (node_at nodes n ≡ Some m) × (mode_of st n ≢ Gone) × IsFalse (is_down st n) × (st.upgrading ≢ Some m.upgrade)) }
{}

/// Only a command on a node changes the node's mode, or whether it is down.
pub fn modes_change_by_these_alone()
    ensures mode { (nodes : List NodeInfo) (past : List Entry) (st : State) (session : SessionNo) (command : Command) (n : NodeNo)
        → ¬ (IsOnNode n command) → mode_of (step nodes past st session command).1 n ≡ mode_of st n }
    ensures down { (nodes : List NodeInfo) (past : List Entry) (st : State) (session : SessionNo) (command : Command) (n : NodeNo)
        → ¬ (IsOnNode n command) → is_down (step nodes past st session command).1 n ≡ is_down st n }
{}

/// Each command on a node by itself: when it is refused, and the state after it. A command is on a node exactly if it is
/// one of these.
#[tactic(auto, unfolding(crate::specs::Steps::node_outcome))]
pub fn node_commands_one_by_one()
    ensures fail { (nodes : List NodeInfo) (past : List Entry) (st : State) (session : SessionNo) (n : NodeNo)
        → step nodes past st session (Fail n)
        ≡ refuse_if (is_none (node_at nodes n)) refusal.UnknownNode st (refuse_if (is_gone (mode_of st n)) refusal.WrongMode st
        (Changed, with_gone (emptied st n) n)) }
    ensures down { (nodes : List NodeInfo) (past : List Entry) (st : State) (session : SessionNo) (n : NodeNo)
        → step nodes past st session (Down n)
        ≡ refuse_if (is_none (node_at nodes n)) refusal.UnknownNode st (refuse_if (is_gone (mode_of st n) || is_down st n) refusal.WrongMode st
        (Changed, with_down st n)) }
    ensures up { (nodes : List NodeInfo) (past : List Entry) (st : State) (session : SessionNo) (n : NodeNo)
        → step nodes past st session (Up n)
        ≡ refuse_if (is_none (node_at nodes n)) refusal.UnknownNode st (refuse_if (not (is_down st n)) refusal.WrongMode st
        (Changed, without_down st n)) }
    ensures drain { (nodes : List NodeInfo) (past : List Entry) (st : State) (session : SessionNo) (n : NodeNo)
        → step nodes past st session (Drain n)
        ≡ refuse_if (is_none (node_at nodes n)) refusal.UnknownNode st (refuse_if (not (is_active (mode_of st n))) refusal.WrongMode st
        (Changed, with_draining st n)) }
    ensures undrain { (nodes : List NodeInfo) (past : List Entry) (st : State) (session : SessionNo) (n : NodeNo)
        → step nodes past st session (Undrain n)
        ≡ refuse_if (is_none (node_at nodes n)) refusal.UnknownNode st (refuse_if (not (is_draining (mode_of st n))) refusal.WrongMode st
        (Changed, without_draining st n)) }
    ensures retire { (nodes : List NodeInfo) (past : List Entry) (st : State) (session : SessionNo) (n : NodeNo)
        → step nodes past st session (Retire n)
        ≡ refuse_if (is_none (node_at nodes n)) refusal.UnknownNode st (refuse_if (not (is_draining (mode_of st n))) refusal.WrongMode st
        (refuse_if (nat_lt 0 (load st n)) (refusal.NotEmpty (load st n)) st (Changed, with_gone st n))) }
    ensures join { (nodes : List NodeInfo) (past : List Entry) (st : State) (session : SessionNo) (n : NodeNo)
        → step nodes past st session (Join n)
        ≡ refuse_if (is_none (node_at nodes n)) refusal.UnknownNode st (refuse_if (not (is_gone (mode_of st n))) refusal.WrongMode st
        (Changed, without_gone st n)) }
    ensures none_else { (n : NodeNo) (command : Command) → IsOnNode n command
        ↔ ((command ≡ Fail n) ⊎ ((command ≡ Down n) ⊎ ((command ≡ Up n) ⊎ ((command ≡ Drain n) ⊎ ((command ≡ Undrain n) ⊎ ((command ≡ Retire n) ⊎ (command ≡ Join n))))))) }
{}

/// Each command on a node except Retire is done exactly if the store has the node and its mode allows the command. It
/// is refused with UnknownNode exactly if the store has no such node, and otherwise with WrongMode if the mode does
/// not allow it. Fail leaves the node Gone, not down, without held seats. Down leaves it down and Up not down, both
/// in its mode. Drain leaves it Draining and Undrain Active, down or not as it was. After a legal history Join leaves
/// it Active, not down, without held seats.
#[tactic(auto, unfolding(crate::specs::Steps::node_outcome))]
pub fn node_commands_in_words()
    ensures fail { (nodes : List NodeInfo) (past : List Entry) (st : State) (session : SessionNo) (n : NodeNo)
        → ((step nodes past st session (Fail n)).0 ≡ Changed) ↔ (IsSome (node_at nodes n) × (mode_of st n ≢ Gone)) }
    ensures fail_unknown { (nodes : List NodeInfo) (past : List Entry) (st : State) (session : SessionNo) (n : NodeNo)
        → ((step nodes past st session (Fail n)).0 ≡ Refused refusal.UnknownNode) ↔ (node_at nodes n ≡ None) }
    ensures fail_wrong { (nodes : List NodeInfo) (past : List Entry) (st : State) (session : SessionNo) (n : NodeNo)
        → ((step nodes past st session (Fail n)).0 ≡ Refused refusal.WrongMode) ↔ (IsSome (node_at nodes n) × (mode_of st n ≡ Gone)) }
    ensures failed { (nodes : List NodeInfo) (past : List Entry) (st : State) (session : SessionNo) (n : NodeNo)
        → (step nodes past st session (Fail n)).0 ≡ Changed
        → (mode_of (step nodes past st session (Fail n)).1 n ≡ Gone)
        × IsFalse (is_down (step nodes past st session (Fail n)).1 n)
        × All (λ seat. seat.node ≢ n) (taken_seats (step nodes past st session (Fail n)).1) }
    ensures down { (nodes : List NodeInfo) (past : List Entry) (st : State) (session : SessionNo) (n : NodeNo)
        → ((step nodes past st session (Down n)).0 ≡ Changed) ↔ (IsSome (node_at nodes n) × (mode_of st n ≢ Gone) × IsFalse (is_down st n)) }
    ensures down_unknown { (nodes : List NodeInfo) (past : List Entry) (st : State) (session : SessionNo) (n : NodeNo)
        → ((step nodes past st session (Down n)).0 ≡ Refused refusal.UnknownNode) ↔ (node_at nodes n ≡ None) }
    ensures down_wrong { (nodes : List NodeInfo) (past : List Entry) (st : State) (session : SessionNo) (n : NodeNo)
        → ((step nodes past st session (Down n)).0 ≡ Refused refusal.WrongMode)
        ↔ (IsSome (node_at nodes n) × ((mode_of st n ≡ Gone) ⊎ IsTrue (is_down st n))) }
    ensures taken_down { (nodes : List NodeInfo) (past : List Entry) (st : State) (session : SessionNo) (n : NodeNo)
        → (step nodes past st session (Down n)).0 ≡ Changed
        → IsTrue (is_down (step nodes past st session (Down n)).1 n)
        × (mode_of (step nodes past st session (Down n)).1 n ≡ mode_of st n) }
    ensures up { (nodes : List NodeInfo) (past : List Entry) (st : State) (session : SessionNo) (n : NodeNo)
        → ((step nodes past st session (Up n)).0 ≡ Changed) ↔ (IsSome (node_at nodes n) × IsTrue (is_down st n)) }
    ensures up_unknown { (nodes : List NodeInfo) (past : List Entry) (st : State) (session : SessionNo) (n : NodeNo)
        → ((step nodes past st session (Up n)).0 ≡ Refused refusal.UnknownNode) ↔ (node_at nodes n ≡ None) }
    ensures up_wrong { (nodes : List NodeInfo) (past : List Entry) (st : State) (session : SessionNo) (n : NodeNo)
        → ((step nodes past st session (Up n)).0 ≡ Refused refusal.WrongMode) ↔ (IsSome (node_at nodes n) × IsFalse (is_down st n)) }
    ensures brought_up { (nodes : List NodeInfo) (past : List Entry) (st : State) (session : SessionNo) (n : NodeNo)
        → (step nodes past st session (Up n)).0 ≡ Changed
        → IsFalse (is_down (step nodes past st session (Up n)).1 n)
        × (mode_of (step nodes past st session (Up n)).1 n ≡ mode_of st n) }
    ensures drain { (nodes : List NodeInfo) (past : List Entry) (st : State) (session : SessionNo) (n : NodeNo)
        → ((step nodes past st session (Drain n)).0 ≡ Changed) ↔ (IsSome (node_at nodes n) × (mode_of st n ≡ Active)) }
    ensures drain_unknown { (nodes : List NodeInfo) (past : List Entry) (st : State) (session : SessionNo) (n : NodeNo)
        → ((step nodes past st session (Drain n)).0 ≡ Refused refusal.UnknownNode) ↔ (node_at nodes n ≡ None) }
    ensures drain_wrong { (nodes : List NodeInfo) (past : List Entry) (st : State) (session : SessionNo) (n : NodeNo)
        → ((step nodes past st session (Drain n)).0 ≡ Refused refusal.WrongMode) ↔ (IsSome (node_at nodes n) × (mode_of st n ≢ Active)) }
    ensures drained { (nodes : List NodeInfo) (past : List Entry) (st : State) (session : SessionNo) (n : NodeNo)
        → (step nodes past st session (Drain n)).0 ≡ Changed
        → (mode_of (step nodes past st session (Drain n)).1 n ≡ Draining)
        × (is_down (step nodes past st session (Drain n)).1 n ≡ is_down st n) }
    ensures undrain { (nodes : List NodeInfo) (past : List Entry) (st : State) (session : SessionNo) (n : NodeNo)
        → ((step nodes past st session (Undrain n)).0 ≡ Changed) ↔ (IsSome (node_at nodes n) × (mode_of st n ≡ Draining)) }
    ensures undrain_unknown { (nodes : List NodeInfo) (past : List Entry) (st : State) (session : SessionNo) (n : NodeNo)
        → ((step nodes past st session (Undrain n)).0 ≡ Refused refusal.UnknownNode) ↔ (node_at nodes n ≡ None) }
    ensures undrain_wrong { (nodes : List NodeInfo) (past : List Entry) (st : State) (session : SessionNo) (n : NodeNo)
        → ((step nodes past st session (Undrain n)).0 ≡ Refused refusal.WrongMode) ↔ (IsSome (node_at nodes n) × (mode_of st n ≢ Draining)) }
    ensures undrained { (nodes : List NodeInfo) (past : List Entry) (st : State) (session : SessionNo) (n : NodeNo)
        → (step nodes past st session (Undrain n)).0 ≡ Changed
        → (mode_of (step nodes past st session (Undrain n)).1 n ≡ Active)
        × (is_down (step nodes past st session (Undrain n)).1 n ≡ is_down st n) }
    ensures join { (nodes : List NodeInfo) (past : List Entry) (st : State) (session : SessionNo) (n : NodeNo)
        → ((step nodes past st session (Join n)).0 ≡ Changed) ↔ (IsSome (node_at nodes n) × (mode_of st n ≡ Gone)) }
    ensures join_unknown { (nodes : List NodeInfo) (past : List Entry) (st : State) (session : SessionNo) (n : NodeNo)
        → ((step nodes past st session (Join n)).0 ≡ Refused refusal.UnknownNode) ↔ (node_at nodes n ≡ None) }
    ensures join_wrong { (nodes : List NodeInfo) (past : List Entry) (st : State) (session : SessionNo) (n : NodeNo)
        → ((step nodes past st session (Join n)).0 ≡ Refused refusal.WrongMode) ↔ (IsSome (node_at nodes n) × (mode_of st n ≢ Gone)) }
    ensures joined { (nodes : List NodeInfo) (history : List Entry) (session : SessionNo) (n : NodeNo)
        → AreNodes nodes → IsLegal nodes history → (outcome_in nodes (world_after nodes history) session (Join n)).0 ≡ Changed
        → (mode_of (outcome_in nodes (world_after nodes history) session (Join n)).1 n ≡ Active)
        × IsFalse (is_down (outcome_in nodes (world_after nodes history) session (Join n)).1 n)
        × All (λ seat. seat.node ≢ n) (taken_seats (outcome_in nodes (world_after nodes history) session (Join n)).1) }
{}

/// Retire removes a node from the store exactly if the node is draining and has no held seat. It is refused with the
/// node's load exactly if the node is draining and has held seats, with UnknownNode if the store has no such node,
/// and with WrongMode if the node is not draining. After it the node is Gone, not down, and has no held seat.
#[tactic(auto, unfolding(crate::specs::Steps::node_outcome))]
pub fn retired_nodes_are_empty()
    ensures done { (nodes : List NodeInfo) (past : List Entry) (st : State) (session : SessionNo) (n : NodeNo)
        → ((step nodes past st session (Retire n)).0 ≡ Changed)
        ↔ (IsSome (node_at nodes n) × (mode_of st n ≡ Draining) × All (λ seat. seat.node ≢ n) (taken_seats st)) }
    ensures empty { (nodes : List NodeInfo) (past : List Entry) (st : State) (session : SessionNo) (n : NodeNo)
        → (step nodes past st session (Retire n)).0 ≡ Changed
        → (mode_of (step nodes past st session (Retire n)).1 n ≡ Gone)
        × All (λ seat. seat.node ≢ n) (taken_seats (step nodes past st session (Retire n)).1) }
    ensures up { (nodes : List NodeInfo) (past : List Entry) (st : State) (session : SessionNo) (n : NodeNo)
        → (step nodes past st session (Retire n)).0 ≡ Changed → IsFalse (is_down (step nodes past st session (Retire n)).1 n) }
    ensures loaded { (nodes : List NodeInfo) (past : List Entry) (st : State) (session : SessionNo) (n : NodeNo) (k : ℕ)
        → ((step nodes past st session (Retire n)).0 ≡ Refused (refusal.NotEmpty k))
        ↔ (IsSome (node_at nodes n) × (mode_of st n ≡ Draining) × (load st n ≡ k) × (1 ≤ k)) }
    ensures unknown { (nodes : List NodeInfo) (past : List Entry) (st : State) (session : SessionNo) (n : NodeNo)
        → ((step nodes past st session (Retire n)).0 ≡ Refused refusal.UnknownNode) ↔ (node_at nodes n ≡ None) }
    ensures wrong { (nodes : List NodeInfo) (past : List Entry) (st : State) (session : SessionNo) (n : NodeNo)
        → ((step nodes past st session (Retire n)).0 ≡ Refused refusal.WrongMode) ↔ (IsSome (node_at nodes n) × (mode_of st n ≢ Draining)) }
{}

/// After Fail exactly these are left: the homes that were on other nodes, the leases with neither their target nor
/// their fragment's home on the node, and all stripes.
#[tactic(auto, unfolding(crate::specs::Steps::node_outcome))]
pub fn a_failed_node_is_emptied()
    ensures homes { (nodes : List NodeInfo) (past : List Entry) (st : State) (session : SessionNo) (n : NodeNo) (h : Held)
        → (step nodes past st session (Fail n)).0 ≡ Changed
        → Contains (step nodes past st session (Fail n)).1.homes h ↔ (Contains st.homes h × (h.seat.node ≢ n)) }
    ensures leases { (nodes : List NodeInfo) (past : List Entry) (st : State) (session : SessionNo) (n : NodeNo) (l : LeaseRecord)
        → (step nodes past st session (Fail n)).0 ≡ Changed
        → Contains (step nodes past st session (Fail n)).1.leases l ↔ (Contains st.leases l × (l.target.node ≢ n)
        × ((h : Held) → Contains st.homes h → h.stripe ≡ l.stripe → h.fragment ≡ l.fragment → h.seat.node ≢ n)) }
    ensures stripes { (nodes : List NodeInfo) (past : List Entry) (st : State) (session : SessionNo) (n : NodeNo)
        → (step nodes past st session (Fail n)).1.stripes ≡ st.stripes }
{}

/// After every history each node of the list `draining` has the mode Draining, so none of them is Gone.
pub fn draining_nodes_are_not_gone()
    ensures { (nodes : List NodeInfo) (history : List Entry)
        → All (λ n. mode_of (state_after nodes history) n ≡ Draining) (state_after nodes history).draining }
{}

/// Each seat that is held after a command was held before it, or is on a node that was Active and online. So a node
/// that is gone, draining, down or upgrading gets no seat.
pub fn seats_come_to_active_nodes_alone()
    ensures { (nodes : List NodeInfo) (past : List Entry) (st : State) (session : SessionNo) (command : Command) (seat : Seat)
        → AreNodes nodes → Contains (taken_seats (step nodes past st session command).1) seat
        → Contains (taken_seats st) seat ⊎ ((mode_of st seat.node ≡ Active) × IsTrue (online_at nodes st seat.node)) }
{}
