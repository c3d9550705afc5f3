//! Laws of states: what stripes, homes, leases, loads, missing fragments and levels mean in terms of the state's
//! lists, and what a read returns.

ghost use Rattle.std.specs.Prelude.{◌≡◌, ◌≢◌, ◌↔◌, ◌⊎◌, ℕ, ◌+◌, ◌<◌, ◌≤◌, Bool, IsTrue, IsFalse, IsSome, List, [], AllPairs, Contains, count_by, length, get_or, Option, Some, None};
ghost use Rattle.lrc_code.specs.declared.codes.Code.{Code};
ghost use Rattle.lrc_code.specs.declared.losses.LossMask.{LossMask};
ghost use Rattle.lrc_code.specs.declared.numbers.StripeNo.{StripeNo};
ghost use Rattle.lrc_code.specs.declared.numbers.NodeNo.{NodeNo};
ghost use Rattle.lrc_code.specs.declared.numbers.Fragment.{Fragment};
ghost use Rattle.lrc_code.specs.Numbers.{same_node};
ghost use Rattle.lrc_code.specs.Codes.{fragment_count};
ghost use Rattle.lrc_code.specs.Losses.{IsRecoverable, IsMargin, bits_set};
ghost use Rattle.lrc_topology.specs.declared.NodeInfo.{NodeInfo};
ghost use Rattle.lrc_topology.specs.declared.seat.Seat.{Seat};
ghost use Rattle.lrc_topology.specs.declared.seat.Held.{Held};
ghost use Rattle.lrc_topology.specs.Nodes.{node_at};
ghost use Rattle.lrc_terms.specs.declared.level.Level.{Level};
ghost use Rattle.lrc_terms.specs.declared.level.Level.TheVariants.{Whole, AtRisk, Unavailable, Lost};
ghost use Rattle.lrc_terms.specs.Levels.{homes_of, SomeMissing, NoneMissing};
ghost use Rattle.lrc_terms.specs.declared.lease.Lease.{Lease as LeaseRecord};
ghost use Rattle.lrc_terms.specs.Leased.{AreOneEach};
ghost use Rattle.lrc_terms.specs.declared.mode.Mode.{Mode};
ghost use Rattle.lrc_terms.specs.declared.mode.Mode.TheVariants.{Active};
ghost use Rattle.lrc_rules.specs.States.{State, opening, has_stripe, code_of, load, lease_of, mode_of, is_down, online_at, homeless, missing, level, code_shown, homes_shown, load_shown, level_shown, missing_shown, mode_shown};
ghost use Rattle.lrc_rules.specs.Goodness.{AreSeated};
ghost use Rattle.lrc_rules.specs.Histories.{state_after};

/// The store has a stripe exactly if the state lists it.
pub fn stripes_in_words()
    ensures there { (st : State) (s : StripeNo) → IsTrue (has_stripe st s) ↔ Contains st.stripes s }
    ensures absent { (st : State) (s : StripeNo) → IsFalse (has_stripe st s) ↔ (¬ (Contains st.stripes s)) }
{}

/// The home that is found for a fragment is one in the list, and none is found exactly if the list has no home of the
/// fragment. If the list has at most one home per fragment, each of its homes is found.
pub fn homes_are_found_by_their_fragment()
    ensures own { (homes : List Held) (s : StripeNo) (f : Fragment) (seat : Seat)
        → homes_of homes s f.value ≡ Some seat → Contains homes (record { stripe = s; fragment = f; seat = seat }) }
    ensures none { (homes : List Held) (s : StripeNo) (f : Fragment)
        → (homes_of homes s f.value ≡ None) ↔ ((seat : Seat) → ¬ (Contains homes (record { stripe = s; fragment = f; seat = seat }))) }
    ensures each { (homes : List Held) (h : Held) → AllPairs (λ h g. h.stripe ≡ g.stripe → h.fragment ≢ g.fragment) homes
        → Contains homes h ↔ (homes_of homes h.stripe h.fragment.value ≡ Some h.seat) }
{}

/// The lease that is found for a fragment is a live lease of it, and none is found exactly if no live lease is. If
/// there is at most one live lease per fragment, each of them is found.
pub fn leases_are_found_by_their_fragment()
    ensures own { (st : State) (s : StripeNo) (f : Fragment) (l : LeaseRecord)
        → lease_of st s f ≡ Some l → Contains st.leases l × (l.stripe ≡ s) × (l.fragment ≡ f) }
    ensures none { (st : State) (s : StripeNo) (f : Fragment)
        → (lease_of st s f ≡ None) ↔ ((l : LeaseRecord) → Contains st.leases l → l.stripe ≡ s → l.fragment ≢ f) }
    ensures each { (st : State) (s : StripeNo) (f : Fragment) (l : LeaseRecord) → AreOneEach st.leases
        → (lease_of st s f ≡ Some l) ↔ (Contains st.leases l × (l.stripe ≡ s) × (l.fragment ≡ f)) }
{}

/// The load of a node is the number of homes on it plus the number of live leases with a target on it.
pub fn loads_in_words()
    ensures sum { (st : State) (n : NodeNo)
        → load st n ≡ count_by (λ h. same_node h.seat.node n) st.homes + count_by (λ l. same_node l.target.node n) st.leases }
{}

/// A fragment of the stripe's code is homeless exactly if the state has no home of it. It is missing exactly if it is
/// homeless or its home is on a node that is not online; in a state that meets `AreSeated` it has no other home. Only
/// fragments of the code are homeless or missing, and in a state that meets `AreSeated` no other number has a home or
/// a lease.
pub fn missing_fragments_in_words()
    ensures homeless { (st : State) (s : StripeNo) (f : Fragment)
        → IsTrue (homeless st s f.value)
        ↔ ((f.value < fragment_count (code_of st s))
        × ((seat : Seat) → ¬ (Contains st.homes (record { stripe = s; fragment = f; seat = seat })))) }
    ensures missing { (nodes : List NodeInfo) (st : State) (s : StripeNo) (f : Fragment)
        → IsTrue (missing nodes st s f.value)
        ↔ (IsTrue (homeless st s f.value)
        ⊎ ((f.value < fragment_count (code_of st s))
        × ((seat : Seat) × (homes_of st.homes s f.value ≡ Some seat) × IsFalse (online_at nodes st seat.node)))) }
    ensures seated { (nodes : List NodeInfo) (st : State) (s : StripeNo) (f : Fragment)
        → AreSeated nodes st
        → IsTrue (missing nodes st s f.value)
        ↔ (IsTrue (homeless st s f.value)
        ⊎ ((f.value < fragment_count (code_of st s))
        × ((seat : Seat) × Contains st.homes (record { stripe = s; fragment = f; seat = seat }) × IsFalse (online_at nodes st seat.node)))) }
    ensures no_other { (nodes : List NodeInfo) (st : State) (s : StripeNo) (f : ℕ)
        → fragment_count (code_of st s) ≤ f → IsFalse (homeless st s f) × IsFalse (missing nodes st s f) }
    ensures none_beyond { (nodes : List NodeInfo) (st : State) (s : StripeNo) (f : Fragment)
        → AreSeated nodes st → fragment_count (code_of st s) ≤ f.value → (homes_of st.homes s f.value ≡ None) × (lease_of st s f ≡ None) }
{}

/// A stripe is Lost exactly if its homeless fragments are not recoverable. Otherwise it is Unavailable exactly if its
/// missing fragments are not recoverable; otherwise AtRisk, with its margin, exactly if a fragment is missing;
/// otherwise Whole.
pub fn levels_in_words()
    ensures lost { (nodes : List NodeInfo) (st : State) (s : StripeNo)
        → (level nodes st s ≡ Lost) ↔ (¬ (IsRecoverable (code_of st s) (homeless st s))) }
    ensures unavailable { (nodes : List NodeInfo) (st : State) (s : StripeNo)
        → (level nodes st s ≡ Unavailable)
        ↔ (IsRecoverable (code_of st s) (homeless st s) × (¬ (IsRecoverable (code_of st s) (missing nodes st s)))) }
    ensures at_risk { (nodes : List NodeInfo) (st : State) (s : StripeNo) (t : ℕ)
        → (level nodes st s ≡ AtRisk t)
        ↔ (IsRecoverable (code_of st s) (homeless st s) × IsMargin (code_of st s) (missing nodes st s) t
        × SomeMissing (code_of st s) (missing nodes st s)) }
    ensures whole { (nodes : List NodeInfo) (st : State) (s : StripeNo)
        → (level nodes st s ≡ Whole)
        ↔ (IsRecoverable (code_of st s) (homeless st s) × NoneMissing (code_of st s) (missing nodes st s)) }
{}

/// A read of a stripe returns its level, its code, the mask of its missing fragments, or the seats of its fragments
/// by the sixteen fragment numbers; nothing if the store has no such stripe. A read of a node returns its mode,
/// whether it is online, and its load; nothing if the store has no such node.
#[tactic(auto, unfolding(lrc_terms::specs::Levels::level_if, lrc_terms::specs::Levels::missing_if))]
pub fn answers_in_words()
    ensures level { (nodes : List NodeInfo) (st : State) (s : StripeNo) (l : Level)
        → (level_shown nodes st s ≡ Some l) ↔ (IsTrue (has_stripe st s) × (level nodes st s ≡ l)) }
    ensures no_level { (nodes : List NodeInfo) (st : State) (s : StripeNo) → (level_shown nodes st s ≡ None) ↔ IsFalse (has_stripe st s) }
    ensures missing { (nodes : List NodeInfo) (st : State) (s : StripeNo) (m : LossMask)
        → (missing_shown nodes st s ≡ Some m)
        ↔ (IsTrue (has_stripe st s) × ((f : ℕ) → bits_set m.bits f ≡ missing nodes st s f)) }
    ensures code { (st : State) (s : StripeNo) (c : Code) → (code_shown st s ≡ Some c) ↔ (IsTrue (has_stripe st s) × (code_of st s ≡ c)) }
    ensures no_code { (st : State) (s : StripeNo) → (code_shown st s ≡ None) ↔ IsFalse (has_stripe st s) }
    ensures no_missing { (nodes : List NodeInfo) (st : State) (s : StripeNo) → (missing_shown nodes st s ≡ None) ↔ IsFalse (has_stripe st s) }
    ensures homes { (st : State) (s : StripeNo) (seats : List (Option Seat))
        → (homes_shown st s ≡ Some seats)
        ↔ (IsTrue (has_stripe st s) × (length seats ≡ 16)
        × ((f : Fragment) → get_or seats f.value None ≡ homes_of st.homes s f.value)) }
    ensures no_homes { (st : State) (s : StripeNo) → (homes_shown st s ≡ None) ↔ IsFalse (has_stripe st s) }
    ensures mode { (nodes : List NodeInfo) (st : State) (n : NodeNo) (mode : Mode) (online : Bool)
        → (mode_shown nodes st n ≡ Some (mode, online))
        ↔ (IsSome (node_at nodes n) × (mode_of st n ≡ mode) × (online_at nodes st n ≡ online)) }
    ensures no_mode { (nodes : List NodeInfo) (st : State) (n : NodeNo) → (mode_shown nodes st n ≡ None) ↔ (node_at nodes n ≡ None) }
    ensures load { (nodes : List NodeInfo) (st : State) (n : NodeNo) (k : ℕ)
        → (load_shown nodes st n ≡ Some k) ↔ (IsSome (node_at nodes n) × (load st n ≡ k)) }
    ensures no_load { (nodes : List NodeInfo) (st : State) (n : NodeNo) → (load_shown nodes st n ≡ None) ↔ (node_at nodes n ≡ None) }
{}

/// Before the first entry there is no stripe, no home and no lease. No domain is upgrading, and every node is Active
/// and not down, so every node of the store is online.
pub fn a_new_store_is_empty()
    ensures first { (nodes : List NodeInfo) → state_after nodes [] ≡ opening }
    ensures stripes { (s : StripeNo) → ¬ (Contains opening.stripes s) }
    ensures homes { (h : Held) → ¬ (Contains opening.homes h) }
    ensures leases { (l : LeaseRecord) → ¬ (Contains opening.leases l) }
    ensures upgrading { opening.upgrading ≡ None }
    ensures modes { (n : NodeNo) → (mode_of opening n ≡ Active) × IsFalse (is_down opening n) }
    ensures online { (nodes : List NodeInfo) (n : NodeNo) → IsSome (node_at nodes n) → IsTrue (online_at nodes opening n) }
{}
