//! Laws of forecasts. The functions do nothing. Their contracts are theorems about the states of a store.

pub mod alike;

ghost use Rattle.std.specs.Prelude.{◌≡◌, ◌↔◌, ℕ, not, ◌&&◌, ◌||◌, IsTrue, IsFalse, List, [], ◌∷◌, Contains};
ghost use Rattle.lrc_code.specs.declared.numbers.StripeNo.{StripeNo};
ghost use Rattle.lrc_code.specs.declared.numbers.NodeNo.{NodeNo};
ghost use Rattle.lrc_code.specs.declared.numbers.SessionNo.{SessionNo};
ghost use Rattle.lrc_topology.specs.declared.NodeInfo.{NodeInfo};
ghost use Rattle.lrc_topology.specs.Nodes.{AreNodes};
ghost use Rattle.lrc_topology.specs.declared.seat.Held.{Held};
ghost use Rattle.lrc_terms.specs.declared.lease.Lease.{Lease};
ghost use Rattle.lrc_terms.specs.Levels.{homes_of};
ghost use Rattle.lrc_terms.specs.Modes.{is_gone};
ghost use Rattle.lrc_rules.specs.declared.command.Command.TheVariants.{Down, Fail};
ghost use Rattle.lrc_rules.specs.declared.reply.Reply.TheVariants.{Changed, Refused};
ghost use Rattle.lrc_rules.specs.declared.refusal.Refusal.{Refusal};
ghost use Rattle.lrc_rules.specs.declared.entry.Entry.{Entry};
ghost use Rattle.lrc_rules.specs.States.{State, seats_of, has_number, mode_of, is_down, online_at, homeless, missing};
ghost use Rattle.lrc_rules.specs.Steps.{step};
ghost use Rattle.lrc_rules.specs.Histories.{IsLegal, state_after};
ghost use Rattle.lrc_rules.specs.Goodness.{AreSeated};
ghost use Rattle.lrc_forecast.specs.declared.outlook.Outage.{Outage};
ghost use Rattle.lrc_forecast.specs.declared.outlook.Outage.TheVariants.{Stop, Lose};
ghost use Rattle.lrc_forecast.specs.Forecasts.{state_with, is_on_any, hit_in, HasSameLosses, ended_leases, has_seat_on_any, outlook, forecast, is_harmed, harms_none, IsUnrecoverable, HasNoSeatOn, Call, AreReturns, without_up, state_after_calls, IsShown, HasOnlyHome, HasOnlyTarget};

/// Where the store takes the command `Down` or `Fail`, it comes to the state with the outage of this node. Where it
/// refuses the command, each stripe has the same level, the same missing fragments and the same leases with the outage as
/// without.
pub fn outages_are_what_commands_leave()
    ensures stop { (nodes : List NodeInfo) (past : List Entry) (st : State) (session : SessionNo) (n : NodeNo)
        → (step nodes past st session (Down n)).0 ≡ Changed
        → (step nodes past st session (Down n)).1 ≡ state_with Stop st (n ∷ []) }
    ensures lose { (nodes : List NodeInfo) (past : List Entry) (st : State) (session : SessionNo) (n : NodeNo)
        → (step nodes past st session (Fail n)).0 ≡ Changed
        → (step nodes past st session (Fail n)).1 ≡ state_with Lose st (n ∷ []) }
    ensures stop_refused { (nodes : List NodeInfo) (past : List Entry) (st : State) (session : SessionNo) (n : NodeNo) (r : Refusal) (s : StripeNo)
        → (step nodes past st session (Down n)).0 ≡ Refused r
        → HasSameLosses nodes st (state_with Stop st (n ∷ [])) s }
    ensures lose_refused { (nodes : List NodeInfo) (past : List Entry) (st : State) (session : SessionNo) (n : NodeNo) (r : Refusal) (s : StripeNo)
        → AreSeated nodes st → (step nodes past st session (Fail n)).0 ≡ Refused r
        → HasSameLosses nodes st (state_with Lose st (n ∷ [])) s }
{}

/// With the outage of these nodes, the fragments are missing that are missing without it, and those with a home on one
/// of the nodes. If the nodes are lost, the same holds of the fragments without a home; if they stop, no home goes.
pub fn an_outage_in_words()
    ensures missing { (nodes : List NodeInfo) (st : State) (outage : Outage) (ns : List NodeNo) (s : StripeNo) (f : ℕ)
        → AreSeated nodes st → missing nodes (state_with outage st ns) s f ≡ (missing nodes st s f || hit_in st ns s f) }
    ensures homeless_stopped { (st : State) (ns : List NodeNo) (s : StripeNo) (f : ℕ)
        → homeless (state_with Stop st ns) s f ≡ homeless st s f }
    ensures homeless_lost { (nodes : List NodeInfo) (st : State) (ns : List NodeNo) (s : StripeNo) (f : ℕ)
        → AreSeated nodes st → homeless (state_with Lose st ns) s f ≡ (homeless st s f || hit_in st ns s f) }
{}

/// With the outage of nodes that stop, each stripe keeps its live leases. With the outage of nodes that are lost, exactly those
/// of its live leases end that have their target on one of the nodes, or whose fragment has its home on one.
pub fn leases_end_in_words()
    ensures stopped { (st : State) (ns : List NodeNo) (s : StripeNo) → ended_leases st (state_with Stop st ns) s ≡ [] }
    ensures lost { (nodes : List NodeInfo) (st : State) (ns : List NodeNo) (s : StripeNo) (l : Lease)
        → AreSeated nodes st → Contains (ended_leases st (state_with Lose st ns) s) l
        ↔ (Contains st.leases l × (l.stripe ≡ s) × IsTrue (has_number ns l.target.node || is_on_any ns (homes_of st.homes s l.fragment.value))) }
    ensures others { (nodes : List NodeInfo) (st : State) (outage : Outage) (ns : List NodeNo) (l : Lease)
        → AreSeated nodes st → Contains (state_with outage st ns).leases l
        ↔ (Contains st.leases l × ¬ (Contains (ended_leases st (state_with outage st ns) l.stripe) l)) }
{}

/// A stripe has a seat on one of the nodes exactly if a home, or the target of a live lease, of a fragment of it is there. A seat
/// is never on a node that is gone, so a node that is gone already harms nothing.
pub fn seats_in_words()
    ensures seats { (nodes : List NodeInfo) (st : State) (ns : List NodeNo) (s : StripeNo) → AreSeated nodes st → IsFalse (has_seat_on_any st ns s) ↔ HasNoSeatOn st ns s }
    ensures standing { (nodes : List NodeInfo) (st : State) (h : Held) → AreSeated nodes st → Contains (seats_of st) h → IsFalse (is_gone (mode_of st h.seat.node)) }
{}

/// An outage is safe exactly if each stripe of the store that is unavailable or lost with it is so without it, and has no seat on
/// one of the nodes.
pub fn safe_in_words()
    ensures { (nodes : List NodeInfo) (st : State) (outage : Outage) (ns : List NodeNo)
        → AreSeated nodes st → IsTrue (harms_none (forecast nodes st outage ns))
        ↔ ((s : StripeNo) → Contains st.stripes s → IsUnrecoverable nodes (state_with outage st ns) s
        → IsUnrecoverable nodes st s × HasNoSeatOn st ns s) }
{}

/// What is safe stays so whatever comes back, while the nodes stay away. Take a stripe that an outage does not harm, and any sequence
/// of `up`, `upgraded` and `done`, by whatever sessions. With the outage leave out each `up` of one of its nodes. Then the stripe is
/// recoverable with the outage after the sequence exactly if it is so without. If an outage is safe, this holds of every stripe of
/// the store. Each step of a sequence ends one, so it holds after each step. It also holds if the nodes come up again.
pub fn no_return_makes_a_safe_outage_harmful()
    ensures stripe { (nodes : List NodeInfo) (past more : List Entry) (st : State) (outage : Outage) (ns : List NodeNo) (calls : List Call) (s : StripeNo)
        → AreSeated nodes st → AreReturns calls → IsFalse (is_harmed (outlook nodes st outage ns s))
        → IsUnrecoverable nodes (state_after_calls nodes more (state_with outage st ns) (without_up ns calls)) s ↔ IsUnrecoverable nodes (state_after_calls nodes past st calls) s }
    ensures all { (nodes : List NodeInfo) (past more : List Entry) (st : State) (outage : Outage) (ns : List NodeNo) (calls : List Call) (s : StripeNo)
        → AreSeated nodes st → AreReturns calls → IsTrue (harms_none (forecast nodes st outage ns)) → Contains st.stripes s
        → IsUnrecoverable nodes (state_after_calls nodes more (state_with outage st ns) (without_up ns calls)) s ↔ IsUnrecoverable nodes (state_after_calls nodes past st calls) s }
    ensures with_up { (nodes : List NodeInfo) (past more : List Entry) (st : State) (outage : Outage) (ns : List NodeNo) (calls : List Call) (s : StripeNo)
        → AreSeated nodes st → AreReturns calls → IsFalse (is_harmed (outlook nodes st outage ns s))
        → IsUnrecoverable nodes (state_after_calls nodes more (state_with outage st ns) calls) s ↔ IsUnrecoverable nodes (state_after_calls nodes past st calls) s }
{}

/// Each seat counts as harm, and not for nothing: an outage of the node of one seat can keep a stripe unrecoverable that one return
/// would have made recoverable (`IsShown`). This holds of a stop and of a loss; of a home on a node that is online, on one that
/// is down, and on one that is offline only by an upgrade; and of the target of a live lease.
pub fn a_return_shows_the_harm()
    ensures online { (outage : Outage) → IsShown outage (λ nodes st s n. HasOnlyHome st s n × IsTrue (online_at nodes st n)) }
    ensures down { (outage : Outage) → IsShown outage (λ nodes st s n. HasOnlyHome st s n × IsTrue (is_down st n)) }
    ensures upgrading { (outage : Outage) → IsShown outage (λ nodes st s n. HasOnlyHome st s n × IsFalse (is_down st n) × IsFalse (online_at nodes st n)) }
    ensures target { (outage : Outage) → IsShown outage (λ nodes st s n. HasOnlyTarget st s n) }
{}

/// The outage of one node can be safe, that of another node too, and the outage of both not: this holds of some nodes
/// after some legal history, both where nodes stop and where they are lost.
pub fn safe_alone_is_not_safe_together()
    ensures { (outage : Outage) → (nodes : List NodeInfo) × (history : List Entry) × (n : NodeNo) × (m : NodeNo)
        × AreNodes nodes × IsLegal nodes history
        × IsTrue (harms_none (forecast nodes (state_after nodes history) outage (n ∷ [])))
        × IsTrue (harms_none (forecast nodes (state_after nodes history) outage (m ∷ [])))
        × IsFalse (harms_none (forecast nodes (state_after nodes history) outage (n ∷ m ∷ []))) }
{}
