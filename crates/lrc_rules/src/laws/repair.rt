//! Laws of repair: which fragments need a lease, and which comes first.

ghost use Rattle.std.specs.Prelude.{◌≡◌, ◌≢◌, ◌↔◌, ◌⊎◌, ◌<◌, IsTrue, IsSome, List, AllPairs, Contains, Some, None};
ghost use Rattle.lrc_code.specs.declared.numbers.StripeNo.{StripeNo};
ghost use Rattle.lrc_code.specs.declared.numbers.Fragment.{Fragment};
ghost use Rattle.lrc_code.specs.Codes.{fragment_count};
ghost use Rattle.lrc_topology.specs.declared.NodeInfo.{NodeInfo};
ghost use Rattle.lrc_topology.specs.declared.seat.Seat.{Seat};
ghost use Rattle.lrc_topology.specs.Nodes.{node_at};
ghost use Rattle.lrc_code.specs.declared.numbers.SessionNo.{SessionNo};
ghost use Rattle.lrc_rules.specs.declared.entry.Entry.{Entry};
ghost use Rattle.lrc_rules.specs.declared.command.Command.TheVariants.{Lease, Next};
ghost use Rattle.lrc_rules.specs.declared.reply.Reply.TheVariants.{Granted, Idle, Refused};
ghost use Rattle.lrc_rules.specs.declared.refusal.Refusal.{Refusal};
ghost use Rattle.lrc_rules.specs.declared.kind.Kind.{Kind};
ghost use Rattle.lrc_terms.specs.Stripes.{StripeFragment};
ghost use Rattle.lrc_terms.specs.declared.level.Level.{Level};
ghost use Rattle.lrc_terms.specs.declared.level.Level.TheVariants.{Whole};
ghost use Rattle.lrc_terms.specs.declared.lease.Lease.{Lease as LeaseRecord};
ghost use Rattle.lrc_terms.specs.Levels.{homes_of, rank_at};
ghost use Rattle.lrc_terms.specs.declared.mode.Mode.TheVariants.{Draining};
ghost use Rattle.lrc_rules.specs.Repairs.{needs};
ghost use Rattle.lrc_rules.specs.Urgency.{work, risk};
ghost use Rattle.lrc_rules.specs.Granting.{IsGrantable, ComesFirst, IsMostUrgent};
ghost use Rattle.lrc_rules.specs.Steps.{step};
ghost use Rattle.lrc_rules.specs.States.{State, has_stripe, code_of, mode_of, rank, level, level_shown};
ghost use Rattle.lrc_rules.specs.Goodness.{AreSeated};

/// A fragment needs a lease exactly if the stripe's code has it, and it has no home or a home on a draining node of
/// the store.
pub fn needs_in_words()
    ensures { (nodes : List NodeInfo) (st : State) (s : StripeNo) (f : Fragment)
        → IsTrue (needs nodes st s f)
        ↔ ((f.value < fragment_count (code_of st s))
        × ((homes_of st.homes s f.value ≡ None)
        ⊎ ((seat : Seat) × (homes_of st.homes s f.value ≡ Some seat) × IsSome (node_at nodes seat.node) × (mode_of st seat.node ≡ Draining)))) }
{}

/// The rank that orders repair is the rank of the stripe's level.
pub fn levels_show_ranks()
    ensures level { (nodes : List NodeInfo) (st : State) (s : StripeNo) → rank nodes st s ≡ rank_at (level nodes st s) }
    ensures shown { (nodes : List NodeInfo) (st : State) (s : StripeNo) (l : Level)
        → level_shown nodes st s ≡ Some l → rank nodes st s ≡ rank_at l }
{}

/// Next does what Lease of the most urgent fragment does. That is the first fragment by the rank of its stripe, the
/// stripe's number and its own number, of those that are owed a lease and may go to some node. Next grants that lease
/// or is Idle.
pub fn next_is_most_urgent()
    ensures told { (nodes : List NodeInfo) (past : List Entry) (st : State) (session : SessionNo) (l : LeaseRecord) (k : Kind)
        → (step nodes past st session Next).0 ≡ Granted l k → IsMostUrgent nodes st (l.stripe, l.fragment) }
    ensures granted { (nodes : List NodeInfo) (past : List Entry) (st : State) (session : SessionNo) (s : StripeNo) (f : Fragment)
        → IsMostUrgent nodes st (s, f) → step nodes past st session Next ≡ step nodes past st session (Lease s f) }
    ensures leased { (nodes : List NodeInfo) (past : List Entry) (st : State) (session : SessionNo) (l : LeaseRecord) (k : Kind)
        → (step nodes past st session Next).0 ≡ Granted l k
        → step nodes past st session Next ≡ step nodes past st session (Lease l.stripe l.fragment) }
    ensures busy { (nodes : List NodeInfo) (past : List Entry) (st : State) (session : SessionNo)
        → (step nodes past st session Next).0 ≢ Idle → (l : LeaseRecord) × (k : Kind) × ((step nodes past st session Next).0 ≡ Granted l k) }
{}

/// Next is Idle exactly if no fragment is both owed a lease and may go to some node. It changes nothing then, and is
/// never refused.
pub fn idle_where_nothing_is_grantable()
    ensures idle { (nodes : List NodeInfo) (past : List Entry) (st : State) (session : SessionNo)
        → ((step nodes past st session Next).0 ≡ Idle) ↔ ((p : StripeFragment) → ¬ (IsGrantable nodes st p)) }
    ensures same { (nodes : List NodeInfo) (past : List Entry) (st : State) (session : SessionNo)
        → (step nodes past st session Next).0 ≡ Idle → (step nodes past st session Next).1 ≡ st }
    ensures never { (nodes : List NodeInfo) (past : List Entry) (st : State) (session : SessionNo) (r : Refusal)
        → (step nodes past st session Next).0 ≢ Refused r }
{}

/// The risk list has exactly the stripes that are not whole, each with its level. In a state that meets `AreSeated`
/// it has each of them once, sorted by rank and then by number.
pub fn risk_lists_all()
    ensures each { (nodes : List NodeInfo) (st : State) (s : StripeNo) (l : Level)
        → Contains (risk nodes st) (s, l) ↔ (IsTrue (has_stripe st s) × (level nodes st s ≡ l) × (l ≢ Whole)) }
    ensures rising { (nodes : List NodeInfo) (st : State)
        → AreSeated nodes st → AllPairs (λ a b. ComesFirst nodes st a.0 b.0) (risk nodes st) }
{}

/// The work list has exactly the stripes with a fragment that needs a lease. In a state that meets `AreSeated` it has
/// each of them once, sorted by rank and then by number.
pub fn work_lists_all()
    ensures each { (nodes : List NodeInfo) (st : State) (s : StripeNo)
        → Contains (work nodes st) s ↔ (IsTrue (has_stripe st s) × ((f : Fragment) × IsTrue (needs nodes st s f))) }
    ensures rising { (nodes : List NodeInfo) (st : State)
        → AreSeated nodes st → AllPairs (λ a b. ComesFirst nodes st a b) (work nodes st) }
{}
