//! Laws of leases: which are granted, what they hold, and how they end.

ghost use Rattle.std.specs.Prelude.{◌≡◌, ◌≢◌, ◌↔◌, ◌⊎◌, ℕ, ◌+◌, ◌<◌, ◌≤◌, IsTrue, IsFalse, IsSome, IsSomeAnd, List, [], ◌∷◌, ◌++◌, Contains, count_by, nat_eq, Some, None};
ghost use Rattle.lrc_code.specs.declared.codes.Code.TheVariants.{Wide, Narrow};
ghost use Rattle.lrc_code.specs.Codes.{fragment_count};
ghost use Rattle.lrc_code.specs.declared.numbers.StripeNo.{StripeNo};
ghost use Rattle.lrc_code.specs.declared.numbers.Fragment.{Fragment};
ghost use Rattle.lrc_topology.specs.declared.NodeInfo.{NodeInfo};
ghost use Rattle.lrc_topology.specs.declared.seat.Held.{Held};
ghost use Rattle.lrc_topology.specs.Nodes.{AreNodes};
ghost use Rattle.lrc_code.specs.declared.numbers.SessionNo.{SessionNo};
ghost use Rattle.lrc_code.specs.declared.numbers.NodeNo.{NodeNo};
ghost use Rattle.lrc_rules.specs.declared.entry.Entry.{Entry};
ghost use Rattle.lrc_rules.specs.declared.command.Command.{Command};
ghost use Rattle.lrc_rules.specs.declared.command.Command.TheVariants.{Lease, Done, Abandon, Revoke, Tick};
ghost use Rattle.lrc_rules.specs.declared.reply.Reply.TheVariants.{Granted, Ended, Refused, Ticked};
ghost use Rattle.lrc_rules.specs.declared.refusal.Refusal.TheVariants as refusal;
ghost use Rattle.lrc_rules.specs.declared.kind.Kind.{Kind};
ghost use Rattle.lrc_rules.specs.declared.kind.Kind.TheVariants.{Local, Local3, Global, Move};
ghost use Rattle.lrc_terms.specs.Levels.{homes_of};
ghost use Rattle.lrc_terms.specs.declared.lease.Lease.{Lease as LeaseRecord};
ghost use Rattle.lrc_rules.specs.Leases.{grants, ticks, new_lease};
ghost use Rattle.lrc_rules.specs.Repairs.{needs, is_safe, kind, IsAtHome, IsFromItsGroup};
ghost use Rattle.lrc_rules.specs.Granting.{IsOwed};
ghost use Rattle.lrc_rules.specs.Reporting.{IsReported};
ghost use Rattle.lrc_rules.specs.Endings.{IsWithoutLease, IsLeftAlone};
ghost use Rattle.lrc_rules.specs.Steps.{step};
ghost use Rattle.lrc_rules.specs.States.{State, has_stripe, code_of, held_by, seats_of, lease_of, online_at};
ghost use Rattle.lrc_rules.specs.Histories.{IsLegal, world_after, state_after};
ghost use Rattle.lrc_rules.specs.Choices.{IsFitting, IsChoice};
ghost use Rattle.lrc_rules.specs.Goodness.{AreSeated};

/// Lease is granted exactly if the fragment is owed a lease and a seat is chosen for it. The session then holds the
/// lease, with this seat as target. Each refusal comes exactly if its reason holds and no earlier one does.
#[tactic(auto, unfolding(crate::specs::Leases::lease_outcome))]
pub fn a_lease_is_granted_where_it_is_owed()
    ensures granted { (nodes : List NodeInfo) (past : List Entry) (st : State) (session : SessionNo)
        (s : StripeNo) (f : Fragment) (l : LeaseRecord) (k : Kind)
        → AreNodes nodes → ((step nodes past st session (Lease s f)).0 ≡ Granted l k)
        ↔ (IsOwed nodes st s f × IsChoice nodes st s f l.target × (l ≡ new_lease past st session s f l.target) × (k ≡ kind nodes st s f)) }
    ensures unknown { (nodes : List NodeInfo) (past : List Entry) (st : State) (session : SessionNo) (s : StripeNo) (f : Fragment)
        → ((step nodes past st session (Lease s f)).0 ≡ Refused refusal.UnknownStripe) ↔ IsFalse (has_stripe st s) }
    ensures leased { (nodes : List NodeInfo) (past : List Entry) (st : State) (session : SessionNo) (s : StripeNo) (f : Fragment) (e : ℕ)
        → ((step nodes past st session (Lease s f)).0 ≡ Refused (refusal.AlreadyLeased e))
        ↔ (IsTrue (has_stripe st s) × IsSomeAnd (lease_of st s f) (λ l. l.epoch ≡ e)) }
    ensures not_needed { (nodes : List NodeInfo) (past : List Entry) (st : State) (session : SessionNo) (s : StripeNo) (f : Fragment)
        → ((step nodes past st session (Lease s f)).0 ≡ Refused refusal.NotNeeded)
        ↔ (IsTrue (has_stripe st s) × (lease_of st s f ≡ None) × IsFalse (needs nodes st s f)) }
    ensures unrecoverable { (nodes : List NodeInfo) (past : List Entry) (st : State) (session : SessionNo) (s : StripeNo) (f : Fragment)
        → ((step nodes past st session (Lease s f)).0 ≡ Refused refusal.Unrecoverable)
        ↔ (IsTrue (has_stripe st s) × (lease_of st s f ≡ None) × IsTrue (needs nodes st s f) × (kind nodes st s f ≡ Global)
        × IsFalse (is_safe nodes st s)) }
    ensures no_node { (nodes : List NodeInfo) (past : List Entry) (st : State) (session : SessionNo) (s : StripeNo) (f : Fragment) (g : Fragment)
        → ((step nodes past st session (Lease s f)).0 ≡ Refused (refusal.NoLawfulNode g))
        ↔ ((g ≡ f) × IsOwed nodes st s f × ((n : NodeInfo) → ¬ (IsFitting nodes st s f n))) }
{}

/// Right after a grant the live lease of the fragment is the one in the reply. Its holder is the session that asked,
/// its target the seat that is chosen for the fragment, its epoch one more than the number of grants before, and its
/// expiry the clock plus 3.
pub fn a_grant_is_the_lease()
    ensures live { (nodes : List NodeInfo) (past : List Entry) (st : State) (session : SessionNo)
        (s : StripeNo) (f : Fragment) (l : LeaseRecord) (k : Kind)
        → (step nodes past st session (Lease s f)).0 ≡ Granted l k → lease_of (step nodes past st session (Lease s f)).1 s f ≡ Some l }
    ensures own { (nodes : List NodeInfo) (past : List Entry) (st : State) (session : SessionNo)
        (s : StripeNo) (f : Fragment) (l : LeaseRecord) (k : Kind)
        → (step nodes past st session (Lease s f)).0 ≡ Granted l k
        → (l.stripe ≡ s) × (l.fragment ≡ f) × (l.holder ≡ session) × (l.epoch ≡ grants past s f + 1) × (l.expiry ≡ st.clock + 3)
        × (k ≡ kind nodes st s f) }
    ensures target { (nodes : List NodeInfo) (past : List Entry) (st : State) (session : SessionNo)
        (s : StripeNo) (f : Fragment) (l : LeaseRecord) (k : Kind)
        → AreNodes nodes → (step nodes past st session (Lease s f)).0 ≡ Granted l k → IsChoice nodes st s f l.target }
{}

/// A fragment is copied from its own home exactly if that home is online. Otherwise it is rebuilt from its local
/// group exactly if it is in one and no other member is missing; the sources are then the other members in ascending
/// order, six in a stripe of the code `Wide`, three in one of the code `Narrow`. Every other fragment is rebuilt from
/// the whole stripe.
pub fn kinds_in_words()
    ensures own { (nodes : List NodeInfo) (st : State) (s : StripeNo) (f : Fragment)
        → (kind nodes st s f ≡ Move) ↔ IsAtHome nodes st s f }
    ensures local { (nodes : List NodeInfo) (st : State) (s : StripeNo) (f : Fragment) (sources : List Fragment)
        → (kind nodes st s f ≡ Local sources) ↔ ((code_of st s ≡ Wide) × IsFromItsGroup nodes st s f sources) }
    ensures local3 { (nodes : List NodeInfo) (st : State) (s : StripeNo) (f : Fragment) (sources : List Fragment)
        → (kind nodes st s f ≡ Local3 sources) ↔ ((code_of st s ≡ Narrow) × IsFromItsGroup nodes st s f sources) }
    ensures global { (nodes : List NodeInfo) (st : State) (s : StripeNo) (f : Fragment)
        → (kind nodes st s f ≡ Global) ↔ ((¬ (IsAtHome nodes st s f)) × ((sources : List Fragment) → ¬ (IsFromItsGroup nodes st s f sources))) }
{}

/// In a state that meets `AreSeated`, commands on a fragment that the stripe's code lacks are refused: the fragment
/// needs no lease, and has none.
pub fn lacking_fragments_are_refused()
    ensures lease { (nodes : List NodeInfo) (past : List Entry) (st : State) (session : SessionNo) (s : StripeNo) (f : Fragment)
        → AreSeated nodes st → IsTrue (has_stripe st s) → fragment_count (code_of st s) ≤ f.value
        → (step nodes past st session (Lease s f)).0 ≡ Refused refusal.NotNeeded }
    ensures done { (nodes : List NodeInfo) (past : List Entry) (st : State) (session : SessionNo) (s : StripeNo) (f : Fragment) (e : ℕ)
        → AreSeated nodes st → IsTrue (has_stripe st s) → fragment_count (code_of st s) ≤ f.value
        → (step nodes past st session (Done s f e)).0 ≡ Refused refusal.Stale }
    ensures abandon { (nodes : List NodeInfo) (past : List Entry) (st : State) (session : SessionNo) (s : StripeNo) (f : Fragment) (e : ℕ)
        → AreSeated nodes st → IsTrue (has_stripe st s) → fragment_count (code_of st s) ≤ f.value
        → (step nodes past st session (Abandon s f e)).0 ≡ Refused refusal.Stale }
    ensures revoke { (nodes : List NodeInfo) (past : List Entry) (st : State) (session : SessionNo) (s : StripeNo) (f : Fragment)
        → AreSeated nodes st → IsTrue (has_stripe st s) → fragment_count (code_of st s) ≤ f.value
        → (step nodes past st session (Revoke s f)).0 ≡ Refused refusal.NoLease }
{}

/// Lease, Done, Abandon and Revoke of one fragment leave the lease of every other fragment as it was.
pub fn others_keep_their_leases()
    ensures lease { (nodes : List NodeInfo) (past : List Entry) (st : State) (session : SessionNo) (s r : StripeNo) (f g : Fragment)
        → (r ≡ s → g ≢ f) → lease_of (step nodes past st session (Lease s f)).1 r g ≡ lease_of st r g }
    ensures done { (nodes : List NodeInfo) (past : List Entry) (st : State) (session : SessionNo) (s r : StripeNo) (f g : Fragment) (e : ℕ)
        → (r ≡ s → g ≢ f) → lease_of (step nodes past st session (Done s f e)).1 r g ≡ lease_of st r g }
    ensures abandon { (nodes : List NodeInfo) (past : List Entry) (st : State) (session : SessionNo) (s r : StripeNo) (f g : Fragment) (e : ℕ)
        → (r ≡ s → g ≢ f) → lease_of (step nodes past st session (Abandon s f e)).1 r g ≡ lease_of st r g }
    ensures revoke { (nodes : List NodeInfo) (past : List Entry) (st : State) (session : SessionNo) (s r : StripeNo) (f g : Fragment)
        → (r ≡ s → g ≢ f) → lease_of (step nodes past st session (Revoke s f)).1 r g ≡ lease_of st r g }
{}

/// Done ends the lease exactly if the session holds the live lease of the fragment, with this epoch, and the node of
/// its target is online. Each refusal comes exactly if its reason holds and no earlier one does.
#[tactic(auto, unfolding(crate::specs::Leases::done_outcome))]
pub fn a_report_is_taken_from_the_holder_alone()
    ensures ended { (nodes : List NodeInfo) (past : List Entry) (st : State) (session : SessionNo) (s : StripeNo) (f : Fragment) (e : ℕ)
        → ((step nodes past st session (Done s f e)).0 ≡ Ended)
        ↔ ((l : LeaseRecord) × IsReported st s f e l × (l.holder ≡ session) × IsTrue (online_at nodes st l.target.node)) }
    ensures unknown { (nodes : List NodeInfo) (past : List Entry) (st : State) (session : SessionNo) (s : StripeNo) (f : Fragment) (e : ℕ)
        → ((step nodes past st session (Done s f e)).0 ≡ Refused refusal.UnknownStripe) ↔ IsFalse (has_stripe st s) }
    ensures stale { (nodes : List NodeInfo) (past : List Entry) (st : State) (session : SessionNo) (s : StripeNo) (f : Fragment) (e : ℕ)
        → ((step nodes past st session (Done s f e)).0 ≡ Refused refusal.Stale)
        ↔ (IsTrue (has_stripe st s) × ((l : LeaseRecord) → lease_of st s f ≡ Some l → l.epoch ≢ e)) }
    ensures others { (nodes : List NodeInfo) (past : List Entry) (st : State) (session : SessionNo)
        (s : StripeNo) (f : Fragment) (e : ℕ) (x : SessionNo)
        → ((step nodes past st session (Done s f e)).0 ≡ Refused (refusal.NotHolder x))
        ↔ ((l : LeaseRecord) × IsReported st s f e l × (l.holder ≡ x) × (x ≢ session)) }
    ensures offline { (nodes : List NodeInfo) (past : List Entry) (st : State) (session : SessionNo)
        (s : StripeNo) (f : Fragment) (e : ℕ) (n : NodeNo)
        → ((step nodes past st session (Done s f e)).0 ≡ Refused (refusal.TargetOffline n))
        ↔ ((l : LeaseRecord) × IsReported st s f e l × (l.holder ≡ session) × (l.target.node ≡ n) × IsFalse (online_at nodes st n)) }
{}

/// After an accepted Done the fragment has no live lease, and its home is the target of that lease. Every other
/// fragment has the home that it had.
pub fn a_report_moves_its_fragment()
    ensures moved { (nodes : List NodeInfo) (past : List Entry) (st : State) (session : SessionNo)
        (s : StripeNo) (f : Fragment) (e : ℕ) (l : LeaseRecord)
        → lease_of st s f ≡ Some l → (step nodes past st session (Done s f e)).0 ≡ Ended
        → (lease_of (step nodes past st session (Done s f e)).1 s f ≡ None)
        × (homes_of (step nodes past st session (Done s f e)).1.homes s f.value ≡ Some l.target) }
    ensures others { (nodes : List NodeInfo) (past : List Entry) (st : State) (session : SessionNo) (s r : StripeNo) (f g : Fragment) (e : ℕ)
        → (r ≡ s → g ≢ f) → homes_of (step nodes past st session (Done s f e)).1.homes r g.value ≡ homes_of st.homes r g.value }
{}

/// Abandon ends the lease exactly if the session holds the live lease of the fragment, with this epoch. The fragment
/// then has no lease, and nothing else changes. Each refusal comes exactly if its reason holds and no earlier one
/// does.
#[tactic(auto, unfolding(crate::specs::Leases::abandon_outcome))]
pub fn a_lease_is_given_back_by_its_holder_alone()
    ensures ended { (nodes : List NodeInfo) (past : List Entry) (st : State) (session : SessionNo) (s : StripeNo) (f : Fragment) (e : ℕ)
        → ((step nodes past st session (Abandon s f e)).0 ≡ Ended) ↔ ((l : LeaseRecord) × IsReported st s f e l × (l.holder ≡ session)) }
    ensures unknown { (nodes : List NodeInfo) (past : List Entry) (st : State) (session : SessionNo) (s : StripeNo) (f : Fragment) (e : ℕ)
        → ((step nodes past st session (Abandon s f e)).0 ≡ Refused refusal.UnknownStripe) ↔ IsFalse (has_stripe st s) }
    ensures stale { (nodes : List NodeInfo) (past : List Entry) (st : State) (session : SessionNo) (s : StripeNo) (f : Fragment) (e : ℕ)
        → ((step nodes past st session (Abandon s f e)).0 ≡ Refused refusal.Stale)
        ↔ (IsTrue (has_stripe st s) × ((l : LeaseRecord) → lease_of st s f ≡ Some l → l.epoch ≢ e)) }
    ensures others { (nodes : List NodeInfo) (past : List Entry) (st : State) (session : SessionNo)
        (s : StripeNo) (f : Fragment) (e : ℕ) (x : SessionNo)
        → ((step nodes past st session (Abandon s f e)).0 ≡ Refused (refusal.NotHolder x))
        ↔ ((l : LeaseRecord) × IsReported st s f e l × (l.holder ≡ x) × (x ≢ session)) }
    ensures after { (nodes : List NodeInfo) (past : List Entry) (st : State) (session : SessionNo) (s : StripeNo) (f : Fragment) (e : ℕ)
        → (step nodes past st session (Abandon s f e)).0 ≡ Ended → IsWithoutLease st s f (step nodes past st session (Abandon s f e)).1 }
{}

/// Revoke ends the lease exactly if the fragment has a live one, whoever holds it. The fragment then has no lease,
/// and nothing else changes. Each refusal comes exactly if its reason holds and no earlier one does.
#[tactic(auto, unfolding(crate::specs::Leases::revoke_outcome))]
pub fn a_lease_is_revoked_whoever_holds_it()
    ensures ended { (nodes : List NodeInfo) (past : List Entry) (st : State) (session : SessionNo) (s : StripeNo) (f : Fragment)
        → ((step nodes past st session (Revoke s f)).0 ≡ Ended) ↔ (IsTrue (has_stripe st s) × IsSome (lease_of st s f)) }
    ensures unknown { (nodes : List NodeInfo) (past : List Entry) (st : State) (session : SessionNo) (s : StripeNo) (f : Fragment)
        → ((step nodes past st session (Revoke s f)).0 ≡ Refused refusal.UnknownStripe) ↔ IsFalse (has_stripe st s) }
    ensures none { (nodes : List NodeInfo) (past : List Entry) (st : State) (session : SessionNo) (s : StripeNo) (f : Fragment)
        → ((step nodes past st session (Revoke s f)).0 ≡ Refused refusal.NoLease) ↔ (IsTrue (has_stripe st s) × (lease_of st s f ≡ None)) }
    ensures after { (nodes : List NodeInfo) (past : List Entry) (st : State) (session : SessionNo) (s : StripeNo) (f : Fragment)
        → (step nodes past st session (Revoke s f)).0 ≡ Ended → IsWithoutLease st s f (step nodes past st session (Revoke s f)).1 }
{}

/// Tick is never refused. It advances the clock by one. The reply has the new clock and the number of live leases
/// that expire at it. Exactly these end: every other lease stays live, the targets of the ended leases are free, and
/// nothing else changes.
#[tactic(auto, unfolding(crate::specs::Leases::tick_outcome))]
pub fn ticks_in_words()
    ensures told { (nodes : List NodeInfo) (past : List Entry) (st : State) (session : SessionNo)
        → (step nodes past st session Tick).0 ≡ Ticked (st.clock + 1) (count_by (λ l. nat_eq l.expiry (st.clock + 1)) st.leases) }
    ensures leases { (nodes : List NodeInfo) (past : List Entry) (st : State) (session : SessionNo) (l : LeaseRecord)
        → Contains (step nodes past st session Tick).1.leases l ↔ (Contains st.leases l × (l.expiry ≢ st.clock + 1)) }
    ensures seats { (nodes : List NodeInfo) (past : List Entry) (st : State) (session : SessionNo) (h : Held)
        → Contains (seats_of (step nodes past st session Tick).1) h
        ↔ (Contains st.homes h ⊎ ((l : LeaseRecord) × Contains st.leases l × (l.expiry ≢ st.clock + 1) × (held_by l ≡ h))) }
    ensures rest { (nodes : List NodeInfo) (past : List Entry) (st : State) (session : SessionNo)
        → (step nodes past st session Tick).1 ≡ record st { leases = (step nodes past st session Tick).1.leases; clock = st.clock + 1 } }
{}

/// The clock is the number of ticks so far, and only Tick changes it. A lease expires at the clock of its grant plus
/// 3, whichever command granted it. If no other command ends it, it is live until the third tick after its grant, and
/// no longer, whatever else happens in between. A refused command ends no lease, so a late worker's report under an
/// older epoch does not shorten it.
pub fn leases_last_three_ticks()
    ensures clock { (nodes : List NodeInfo) (history : List Entry) → (state_after nodes history).clock ≡ ticks history }
    ensures others { (nodes : List NodeInfo) (past : List Entry) (st : State) (session : SessionNo) (command : Command)
        → command ≢ Tick → (step nodes past st session command).1.clock ≡ st.clock }
    ensures granted { (nodes : List NodeInfo) (past : List Entry) (st : State) (session : SessionNo)
        (command : Command) (l : LeaseRecord) (k : Kind)
        → (step nodes past st session command).0 ≡ Granted l k → l.expiry ≡ st.clock + 3 }
    ensures live { (nodes : List NodeInfo) (history : List Entry) (e : Entry) (es : List Entry) (l : LeaseRecord) (k : Kind)
        → AreNodes nodes → IsLegal nodes (history ++ e ∷ es) → e.reply ≡ Granted l k
        → IsLeftAlone nodes l (world_after nodes (history ++ e ∷ [])) es
        → (lease_of (state_after nodes (history ++ e ∷ es)) l.stripe l.fragment ≡ Some l) ↔ (ticks es < 3) }
{}
