//! Laws of histories that begin in a base, a world that a book can begin in. Each law of `lrc_rules`
//! on legal histories has its like here but `legal_histories_are_served`, which speaks of the empty
//! store. Clauses that speak of any state are not said again.

ghost use Rattle.std.specs.Prelude.{◌≡◌, ◌≢◌, ◌⊎◌, ◌↔◌, ◌+◌, ℕ, ◌<◌, ◌≤◌, if◌then◌else◌, IsFalse, List, [], ◌∷◌, ◌++◌, All, Contains, Some, length};
ghost use Rattle.lrc_code.specs.declared.numbers.StripeNo.{StripeNo};
ghost use Rattle.lrc_code.specs.declared.numbers.NodeNo.{NodeNo};
ghost use Rattle.lrc_code.specs.declared.numbers.UpgradeNo.{UpgradeNo};
ghost use Rattle.lrc_code.specs.declared.numbers.SessionNo.{SessionNo};
ghost use Rattle.lrc_code.specs.declared.numbers.Fragment.{Fragment};
ghost use Rattle.lrc_code.specs.Losses.{IsMargin};
ghost use Rattle.lrc_topology.specs.declared.NodeInfo.{NodeInfo};
ghost use Rattle.lrc_topology.specs.Nodes.{AreNodes};
ghost use Rattle.lrc_terms.specs.declared.lease.Lease.{Lease as LeaseRecord};
ghost use Rattle.lrc_terms.specs.declared.level.Level.TheVariants.{Whole};
ghost use Rattle.lrc_terms.specs.declared.mode.Mode.TheVariants.{Active, Draining};
ghost use Rattle.lrc_rules.specs.declared.command.Command.{Command};
ghost use Rattle.lrc_rules.specs.declared.command.Command.TheVariants.{Done, Abandon, Upgrade, Join};
ghost use Rattle.lrc_rules.specs.declared.reply.Reply.TheVariants.{Granted, Changed, Refused};
ghost use Rattle.lrc_rules.specs.declared.refusal.Refusal.TheVariants as refusal;
ghost use Rattle.lrc_rules.specs.declared.kind.Kind.{Kind};
ghost use Rattle.lrc_rules.specs.declared.entry.Entry.{Entry};
ghost use Rattle.lrc_rules.specs.States.{has_stripe, lease_of, code_of, taken_seats, mode_of, is_down, missing, level};
ghost use Rattle.lrc_rules.specs.Outcomes.{refused};
ghost use Rattle.lrc_rules.specs.Leases.{grants, reports_taken, ticks};
ghost use Rattle.lrc_rules.specs.Granting.{AsksFor};
ghost use Rattle.lrc_rules.specs.Endings.{IsLeftAlone};
ghost use Rattle.lrc_rules.specs.Histories.{World, IsLegalFrom, outcome_in, world_from, state_from};
ghost use Rattle.lrc_rules.specs.Goodness.{IsGood};
ghost use Rattle.lrc_images.specs.Bases.{IsBase};

/// After each legal history from a base every placement is lawful, every seat is held at most once
/// and is a slot of a node that is not gone, and each fragment has at most one home and one lease.
/// Each live lease has the epoch of its fragment's last grant, in the history or before the base,
/// has not expired, and expires within three ticks.
pub fn legal_histories_leave_good_states_from_any_base()
    ensures { (nodes : List NodeInfo) (base : World) (history : List Entry)
        → AreNodes nodes → IsBase nodes base → IsLegalFrom nodes base history
        → IsGood nodes (base.past ++ history) (state_from nodes base history) }
{}

/// After a legal history from a base Done and Abandon are refused if their epoch is not the number
/// of the fragment's grants, in the history and before the base: with Stale, or with UnknownStripe if
/// there is no such stripe. They change nothing then.
pub fn stale_epochs_are_refused_from_any_base()
    ensures done { (nodes : List NodeInfo) (base : World) (history : List Entry)
        (session : SessionNo) (s : StripeNo) (f : Fragment) (e : ℕ)
        → AreNodes nodes → IsBase nodes base → IsLegalFrom nodes base history
        → e ≢ grants (base.past ++ history) s f
        → outcome_in nodes (world_from nodes base history) session (Done s f e)
        ≡ refused (if has_stripe (state_from nodes base history) s then refusal.Stale else refusal.UnknownStripe)
        (state_from nodes base history) }
    ensures abandon { (nodes : List NodeInfo) (base : World) (history : List Entry)
        (session : SessionNo) (s : StripeNo) (f : Fragment) (e : ℕ)
        → AreNodes nodes → IsBase nodes base → IsLegalFrom nodes base history
        → e ≢ grants (base.past ++ history) s f
        → outcome_in nodes (world_from nodes base history) session (Abandon s f e)
        ≡ refused (if has_stripe (state_from nodes base history) s then refusal.Stale else refusal.UnknownStripe)
        (state_from nodes base history) }
{}

/// Of the entries of a legal history from a base, at most one is an accepted Done of each epoch of a
/// fragment, also of an epoch that was granted before the base. Entries before the base do not count.
pub fn one_done_a_grant_from_any_base()
    ensures { (nodes : List NodeInfo) (base : World) (history : List Entry) (s : StripeNo) (f : Fragment) (e : ℕ)
        → AreNodes nodes → IsBase nodes base → IsLegalFrom nodes base history
        → reports_taken history s f e ≤ 1 }
{}

/// After a legal history from a base each live lease was live in the base and is unchanged, or was
/// granted in one of the entries of the history, to the session that holds it, by Lease of its
/// fragment or by Next.
pub fn live_leases_were_granted_from_any_base()
    ensures { (nodes : List NodeInfo) (base : World) (history : List Entry) (l : LeaseRecord)
        → IsLegalFrom nodes base history → Contains (state_from nodes base history).leases l
        → Contains base.state.leases l
        ⊎ ((c : Command) × (k : Kind) × AsksFor l c
        × Contains history (record { session = l.holder; command = c; reply = Granted l k })) }
{}

/// After a legal history from a base Upgrade is never refused for a stripe that is whole. After it
/// each stripe that was whole survives at least one further loss.
pub fn upgrades_are_safe_from_any_base()
    ensures whole { (nodes : List NodeInfo) (base : World) (history : List Entry)
        (session : SessionNo) (u : UpgradeNo) (s : StripeNo)
        → AreNodes nodes → IsBase nodes base → IsLegalFrom nodes base history
        → level nodes (state_from nodes base history) s ≡ Whole
        → (outcome_in nodes (world_from nodes base history) session (Upgrade u)).0 ≢ Refused (refusal.WouldLose s) }
    ensures margin { (nodes : List NodeInfo) (base : World) (history : List Entry)
        (session : SessionNo) (u : UpgradeNo) (s : StripeNo)
        → AreNodes nodes → IsBase nodes base → IsLegalFrom nodes base history
        → level nodes (state_from nodes base history) s ≡ Whole
        → (outcome_in nodes (world_from nodes base history) session (Upgrade u)).0 ≡ Changed
        → (t : ℕ) × (1 ≤ t)
        × IsMargin (code_of (state_from nodes base history) s)
        (missing nodes (outcome_in nodes (world_from nodes base history) session (Upgrade u)).1 s) t }
{}

/// After a legal history from a base Join leaves a node Active, not down, without held seats.
pub fn joined_nodes_are_empty_from_any_base()
    ensures { (nodes : List NodeInfo) (base : World) (history : List Entry) (session : SessionNo) (n : NodeNo)
        → AreNodes nodes → IsBase nodes base → IsLegalFrom nodes base history
        → (outcome_in nodes (world_from nodes base history) session (Join n)).0 ≡ Changed
        → (mode_of (outcome_in nodes (world_from nodes base history) session (Join n)).1 n ≡ Active)
        × IsFalse (is_down (outcome_in nodes (world_from nodes base history) session (Join n)).1 n)
        × All (λ seat. seat.node ≢ n) (taken_seats (outcome_in nodes (world_from nodes base history) session (Join n)).1) }
{}

/// After every history from a base each node of the list `draining` has the mode Draining, so none
/// of them is Gone.
pub fn draining_nodes_are_not_gone_from_any_base()
    ensures { (nodes : List NodeInfo) (base : World) (history : List Entry)
        → IsBase nodes base
        → All (λ n. mode_of (state_from nodes base history) n ≡ Draining) (state_from nodes base history).draining }
{}

/// The clock is that of the base and the ticks since.
pub fn ticks_count_from_any_base()
    ensures { (nodes : List NodeInfo) (base : World) (history : List Entry)
        → (state_from nodes base history).clock ≡ base.state.clock + ticks history }
{}

/// A lease that was granted in an entry of a legal history from a base, and that no command but Tick
/// ends, is live until the third tick after its grant, and no longer. A lease of the base that no command
/// but Tick ends is live until the ticks since bring the clock to its expiry, and no longer.
pub fn leases_last_three_ticks_from_any_base()
    ensures since { (nodes : List NodeInfo) (base : World) (history : List Entry) (e : Entry) (es : List Entry) (l : LeaseRecord) (k : Kind)
        → AreNodes nodes → IsBase nodes base → IsLegalFrom nodes base (history ++ e ∷ es) → e.reply ≡ Granted l k
        → IsLeftAlone nodes l (world_from nodes base (history ++ e ∷ [])) es
        → (lease_of (state_from nodes base (history ++ e ∷ es)) l.stripe l.fragment ≡ Some l) ↔ (ticks es < 3) }
    ensures before { (nodes : List NodeInfo) (base : World) (history : List Entry) (l : LeaseRecord)
        → AreNodes nodes → IsBase nodes base → IsLegalFrom nodes base history
        → lease_of base.state l.stripe l.fragment ≡ Some l → IsLeftAlone nodes l base history
        → (lease_of (state_from nodes base history) l.stripe l.fragment ≡ Some l) ↔ (base.state.clock + ticks history < l.expiry) }
{}

/// A base leaves room for a history of 1,000,000 entries. Up to its end no fragment has been granted
/// 4,294,967,295 leases, the clock is at most 4,294,967,291, and no live lease expires at
/// 4,294,967,295 or later.
pub fn numbers_leave_room_from_any_base()
    ensures counts { (nodes : List NodeInfo) (base : World) (history : List Entry) (s : StripeNo) (f : Fragment)
        → IsBase nodes base → length history ≤ 1000000
        → grants (base.past ++ history) s f < 4294967295 }
    ensures ticks { (nodes : List NodeInfo) (base : World) (history : List Entry)
        → IsBase nodes base → length history ≤ 1000000
        → (state_from nodes base history).clock ≤ 4294967291 }
    ensures expiries { (nodes : List NodeInfo) (base : World) (history : List Entry)
        → AreNodes nodes → IsBase nodes base → IsLegalFrom nodes base history → length history ≤ 1000000
        → All (λ l. l.expiry < 4294967295) (state_from nodes base history).leases }
{}
