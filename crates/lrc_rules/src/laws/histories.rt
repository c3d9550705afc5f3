//! Laws of histories: what holds after a legal history, and what a command leaves alone.

ghost use Rattle.std.specs.Prelude.{◌≡◌, ◌≢◌, ℕ, ◌≤◌, if◌then◌else◌, IsTrue, List, Contains, Some, length};
ghost use Rattle.lrc_code.specs.declared.numbers.StripeNo.{StripeNo};
ghost use Rattle.lrc_code.specs.declared.numbers.Fragment.{Fragment};
ghost use Rattle.lrc_topology.specs.declared.NodeInfo.{NodeInfo};
ghost use Rattle.lrc_topology.specs.declared.seat.Seat.{Seat};
ghost use Rattle.lrc_topology.specs.Nodes.{AreNodes};
ghost use Rattle.lrc_code.specs.declared.numbers.SessionNo.{SessionNo};
ghost use Rattle.lrc_rules.specs.declared.entry.Entry.{Entry};
ghost use Rattle.lrc_rules.specs.declared.command.Command.{Command};
ghost use Rattle.lrc_rules.specs.declared.command.Command.TheVariants.{Done, Abandon};
ghost use Rattle.lrc_rules.specs.declared.reply.Reply.TheVariants.{Granted, Refused};
ghost use Rattle.lrc_rules.specs.declared.refusal.Refusal.TheVariants as refusal;
ghost use Rattle.lrc_rules.specs.declared.refusal.Refusal.{Refusal};
ghost use Rattle.lrc_rules.specs.declared.kind.Kind.{Kind};
ghost use Rattle.lrc_terms.specs.Levels.{homes_of};
ghost use Rattle.lrc_terms.specs.declared.lease.Lease.{Lease as LeaseRecord};
ghost use Rattle.lrc_rules.specs.Outcomes.{refused};
ghost use Rattle.lrc_rules.specs.Leases.{grants, reports_taken};
ghost use Rattle.lrc_rules.specs.Granting.{AsksFor};
ghost use Rattle.lrc_rules.specs.Endings.{CanEnd, CanMove, IsDropOf};
ghost use Rattle.lrc_rules.specs.Steps.{step};
ghost use Rattle.lrc_rules.specs.States.{State, has_stripe, lease_of};
ghost use Rattle.lrc_rules.specs.Histories.{IsLegal, outcome_in, world_after, state_after};
ghost use Rattle.lrc_rules.specs.Goodness.{IsGood};
ghost use Rattle.lrc_rules.specs.Served.{IsServed};
ghost use Rattle.lrc_rules.specs.Sessions.{NumberedEntry, entries_of, AreRising};

/// After each legal history every placement is lawful, every seat is held at most once and is a slot of a node that
/// is not gone, and each fragment has at most one home and one lease. Each live lease has the epoch of its fragment's
/// last grant, has not expired, and expires within three ticks.
pub fn legal_histories_leave_good_states()
    ensures { (nodes : List NodeInfo) (history : List Entry)
        → AreNodes nodes → IsLegal nodes history → IsGood nodes history (state_after nodes history) }
{}

/// Each legal history keeps every promise of the manager, phrase by phrase.
pub fn legal_histories_are_served()
    ensures { (nodes : List NodeInfo) (history : List Entry) → AreNodes nodes → IsLegal nodes history → IsServed nodes history }
{}

/// A refused command leaves the state as it was, in every state.
pub fn refused_commands_change_nothing()
    ensures { (nodes : List NodeInfo) (past : List Entry) (st : State) (session : SessionNo) (command : Command) (r : Refusal)
        → (step nodes past st session command).0 ≡ Refused r → (step nodes past st session command).1 ≡ st }
{}

/// After a legal history Done and Abandon are refused if their epoch is not the number of the fragment's grants: with
/// Stale, or with UnknownStripe if there is no such stripe. They change nothing then.
pub fn stale_epochs_are_refused()
    ensures done { (nodes : List NodeInfo) (history : List Entry) (session : SessionNo) (s : StripeNo) (f : Fragment) (e : ℕ)
        → AreNodes nodes → IsLegal nodes history → e ≢ grants history s f
        → outcome_in nodes (world_after nodes history) session (Done s f e)
        ≡ refused (if has_stripe (state_after nodes history) s then refusal.Stale else refusal.UnknownStripe) (state_after nodes history) }
    ensures abandon { (nodes : List NodeInfo) (history : List Entry) (session : SessionNo) (s : StripeNo) (f : Fragment) (e : ℕ)
        → AreNodes nodes → IsLegal nodes history → e ≢ grants history s f
        → outcome_in nodes (world_after nodes history) session (Abandon s f e)
        ≡ refused (if has_stripe (state_after nodes history) s then refusal.Stale else refusal.UnknownStripe) (state_after nodes history) }
{}

/// In a legal history at most one Done of each epoch of a fragment was accepted.
pub fn one_done_a_grant()
    ensures { (nodes : List NodeInfo) (history : List Entry) (s : StripeNo) (f : Fragment) (e : ℕ)
        → AreNodes nodes → IsLegal nodes history → reports_taken history s f e ≤ 1 }
{}

/// After a legal history each live lease was granted in one of the entries, to the session that holds it, by Lease of
/// its fragment or by Next.
pub fn live_leases_were_granted()
    ensures { (nodes : List NodeInfo) (history : List Entry) (l : LeaseRecord)
        → IsLegal nodes history → Contains (state_after nodes history).leases l
        → (c : Command) × (k : Kind) × AsksFor l c × Contains history (record { session = l.holder; command = c; reply = Granted l k }) }
{}

/// A live lease stays unchanged after every command except these: Done, Abandon or Revoke of its fragment, Drop of
/// its stripe, Fail of the node of its target or of its fragment's home, and the Tick at which it expires.
pub fn leases_end_by_these_alone()
    ensures { (nodes : List NodeInfo) (past : List Entry) (st : State) (session : SessionNo)
        (command : Command) (s : StripeNo) (f : Fragment) (l : LeaseRecord)
        → lease_of st s f ≡ Some l → ¬ (CanEnd st l command) → lease_of (step nodes past st session command).1 s f ≡ Some l }
{}

/// A home stays unchanged after every command except these: Done of its fragment, Drop of its stripe, and Fail of its
/// node.
pub fn homes_end_by_these_alone()
    ensures { (nodes : List NodeInfo) (past : List Entry) (st : State) (session : SessionNo)
        (command : Command) (s : StripeNo) (f : Fragment) (seat : Seat)
        → homes_of st.homes s f.value ≡ Some seat → ¬ (CanMove s f seat command)
        → homes_of (step nodes past st session command).1.homes s f.value ≡ Some seat }
{}

/// A stripe stays in the store after every command except its Drop.
pub fn stripes_end_by_drop_alone()
    ensures { (nodes : List NodeInfo) (past : List Entry) (st : State) (session : SessionNo) (command : Command) (s : StripeNo)
        → IsTrue (has_stripe st s) → ¬ (IsDropOf s command) → IsTrue (has_stripe (step nodes past st session command).1 s) }
{}

/// A list of entries of one session, at ascending positions in a history, is the list of all its entries in order, if
/// it has as many as the history has of the session.
pub fn as_many_at_rising_places_are_all()
    ensures { (session : ℕ) (history : List Entry) (found : List NumberedEntry) → AreRising session 1 history 1 found
        → length found ≡ length (entries_of session history) → found ≡ entries_of session history }
{}
