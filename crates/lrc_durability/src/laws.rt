//! Laws of levels, ranks and leases in bytes. Each law is the contract of a function that does nothing.

ghost use Rattle.std.specs.Prelude.{◌≡◌, ◌≢◌, ◌↔◌, ℕ, ◌+◌, ◌<◌, IsTrue, IsFalse, List, Some, None};
ghost use Rattle.lrc_code.specs.declared.numbers.StripeNo.{StripeNo};
ghost use Rattle.lrc_code.specs.declared.numbers.SessionNo.{SessionNo};
ghost use Rattle.lrc_code.specs.declared.numbers.Fragment.{Fragment};
ghost use Rattle.lrc_code.specs.Codes.{fragment_count, data_count};
ghost use Rattle.lrc_code.specs.Losses.{FragmentSet, size_of};
ghost use Rattle.lrc_field.specs.Stripes.{Bytes, outside, Determines, IsDecodable, AreAlikeOutside};
ghost use Rattle.lrc_field.specs.Stripes.{StaysDecodable, AreTooMany};
ghost use Rattle.lrc_field.specs.Recipes.{IsRecipe};
ghost use Rattle.lrc_topology.specs.declared.NodeInfo.{NodeInfo};
ghost use Rattle.lrc_terms.specs.declared.level.Level.TheVariants.{Whole, AtRisk, Unavailable, Lost};
ghost use Rattle.lrc_terms.specs.declared.lease.Lease.{Lease as LeaseRecord};
ghost use Rattle.lrc_terms.specs.Levels.{SomeMissing, NoneMissing};
ghost use Rattle.lrc_rules.specs.declared.entry.Entry.{Entry};
ghost use Rattle.lrc_rules.specs.declared.command.Command.{Command};
ghost use Rattle.lrc_rules.specs.declared.command.Command.TheVariants.{Lease};
ghost use Rattle.lrc_rules.specs.declared.reply.Reply.TheVariants.{Granted, Refused};
ghost use Rattle.lrc_rules.specs.declared.refusal.Refusal.TheVariants as refusal;
ghost use Rattle.lrc_rules.specs.declared.kind.Kind.{Kind};
ghost use Rattle.lrc_rules.specs.declared.kind.Kind.TheVariants.{Global};
ghost use Rattle.lrc_rules.specs.States.{State, has_stripe, code_of, lease_of, homeless, missing, rank, level_shown};
ghost use Rattle.lrc_rules.specs.Repairs.{needs, kind};
ghost use Rattle.lrc_rules.specs.Steps.{step};
ghost use Rattle.lrc_rules.specs.Histories.{World, state_from};
ghost use Rattle.lrc_durability.specs.Sources.{sources_of};

/// After any history a stripe of the store is Lost exactly if the bytes of its fragments with a home do not determine all
/// of its fragments: then two different stripes have these bytes in common. It is Unavailable exactly if it is not Lost,
/// and the bytes of its fragments on online nodes do not determine all. It is AtRisk with a margin exactly if a fragment is
/// missing, and what is left determines all whichever further fragments go missing, as many as the margin says, and no
/// longer after some set of one more. It is Whole exactly if no fragment is missing.
pub fn levels_in_bytes()
    ensures lost { (nodes : List NodeInfo) (w : World) (history : List Entry) (s : StripeNo) →
        let st = state_from nodes w history in
        (level_shown nodes st s ≡ Some Lost) ↔ (IsTrue (has_stripe st s) × (¬ IsDecodable (code_of st s) (homeless st s))) }
    ensures two_stripes { (nodes : List NodeInfo) (w : World) (history : List Entry) (s : StripeNo) →
        let st = state_from nodes w history in
        (level_shown nodes st s ≡ Some Lost)
        ↔ (IsTrue (has_stripe st s) × ((a : Bytes) × (b : Bytes) × AreAlikeOutside (code_of st s) (homeless st s) a b)) }
    ensures unavailable { (nodes : List NodeInfo) (w : World) (history : List Entry) (s : StripeNo) →
        let st = state_from nodes w history in
        (level_shown nodes st s ≡ Some Unavailable)
        ↔ (IsTrue (has_stripe st s)
        × IsDecodable (code_of st s) (homeless st s) × (¬ IsDecodable (code_of st s) (missing nodes st s))) }
    ensures at_risk { (nodes : List NodeInfo) (w : World) (history : List Entry) (s : StripeNo) (t : ℕ) →
        let st = state_from nodes w history in
        (level_shown nodes st s ≡ Some (AtRisk t))
        ↔ (IsTrue (has_stripe st s) × SomeMissing (code_of st s) (missing nodes st s)
        × StaysDecodable (code_of st s) (missing nodes st s) t
        × ((more : FragmentSet) × (size_of (code_of st s) more ≡ t + 1)
        × AreTooMany (code_of st s) (missing nodes st s) more)) }
    ensures whole { (nodes : List NodeInfo) (w : World) (history : List Entry) (s : StripeNo) →
        let st = state_from nodes w history in
        (level_shown nodes st s ≡ Some Whole)
        ↔ (IsTrue (has_stripe st s) × NoneMissing (code_of st s) (missing nodes st s)) }
{}

/// The rank of a stripe in the order of repair is 4 exactly if the bytes of its fragments on online nodes do not determine
/// all. It is another number exactly if what is left determines all whichever further fragments go missing, as many as that
/// number, and no longer after some set of one more.
pub fn ranks_in_bytes()
    ensures margin { (nodes : List NodeInfo) (st : State) (s : StripeNo) (t : ℕ) → t ≢ 4
        → (rank nodes st s ≡ t)
        ↔ (StaysDecodable (code_of st s) (missing nodes st s) t
        × ((more : FragmentSet) × (size_of (code_of st s) more ≡ t + 1)
        × AreTooMany (code_of st s) (missing nodes st s) more)) }
    ensures none { (nodes : List NodeInfo) (st : State) (s : StripeNo)
        → (rank nodes st s ≡ 4) ↔ (¬ IsDecodable (code_of st s) (missing nodes st s)) }
{}

/// Lease of a fragment that needs one and has none is refused as Unrecoverable exactly if the bytes of its stripe's
/// fragments on online nodes do not determine it. They determine a missing fragment exactly if there is a recipe that
/// reads none but these.
pub fn refusals_in_bytes()
    ensures unrecoverable { (nodes : List NodeInfo) (past : List Entry) (st : State) (session : SessionNo)
        (s : StripeNo) (f : Fragment)
        → ((step nodes past st session (Lease s f)).0 ≡ Refused refusal.Unrecoverable)
        ↔ (IsTrue (has_stripe st s) × (lease_of st s f ≡ None) × IsTrue (needs nodes st s f)
        × (¬ Determines (code_of st s) (outside (missing nodes st s)) f.value)) }
    ensures recipe { (nodes : List NodeInfo) (st : State) (s : StripeNo) (f : Fragment)
        → IsTrue (missing nodes st s f.value)
        → Determines (code_of st s) (outside (missing nodes st s)) f.value
        ↔ ((c : ℕ → ℕ) × IsRecipe (code_of st s) (missing nodes st s) f.value c) }
{}

/// What a granted lease reads is there, and is enough: each fragment that it reads is on an online node, and the bytes of
/// these determine its own. A missing fragment is rebuilt from its local group exactly if fewer fragments on online nodes
/// determine it than the code has data fragments.
pub fn leases_in_bytes()
    ensures present { (nodes : List NodeInfo) (past : List Entry) (st : State) (session : SessionNo)
        (command : Command) (l : LeaseRecord) (k : Kind) (g : ℕ)
        → (step nodes past st session command).0 ≡ Granted l k → g < fragment_count (code_of st l.stripe)
        → IsTrue (sources_of k (missing nodes st l.stripe) l.fragment g) → IsFalse (missing nodes st l.stripe g) }
    ensures enough { (nodes : List NodeInfo) (past : List Entry) (st : State) (session : SessionNo)
        (command : Command) (l : LeaseRecord) (k : Kind)
        → (step nodes past st session command).0 ≡ Granted l k
        → Determines (code_of st l.stripe) (sources_of k (missing nodes st l.stripe) l.fragment) l.fragment.value }
    ensures group { (nodes : List NodeInfo) (st : State) (s : StripeNo) (f : Fragment)
        → IsTrue (missing nodes st s f.value)
        → (kind nodes st s f ≢ Global)
        ↔ ((known : FragmentSet) × (size_of (code_of st s) known < data_count (code_of st s))
        × ((g : ℕ) → g < fragment_count (code_of st s) → IsTrue (known g) → IsFalse (missing nodes st s g))
        × Determines (code_of st s) known f.value) }
{}
