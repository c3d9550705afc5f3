//! Laws of the definitions in `specs/`. Each law is the contract of a function that does nothing.

ghost use Rattle.std.specs.Prelude.{◌≡◌, ℕ, ◌-◌, ◌↔◌, Bool, not, if◌then◌else◌, List, [], ◌∷◌, ◌++◌, filter, Some, None, IsTrue, Contains, ◌<◌, ◌≤◌};
ghost use Rattle.lrc_code.specs.declared.numbers.StripeNo.{StripeNo};
ghost use Rattle.lrc_code.specs.declared.numbers.Fragment.{Fragment};
ghost use Rattle.lrc_code.specs.Numbers.{same_stripe};
ghost use Rattle.lrc_terms.specs.declared.lease.Lease.{Lease};
ghost use Rattle.lrc_terms.specs.Leased.{is_of, leases_in, leased_of, with_lease, without_lease, AreOneEach};
ghost use Rattle.lrc_code.specs.declared.codes.Code.{Code};
ghost use Rattle.lrc_code.specs.declared.numbers.NodeNo.{NodeNo};
ghost use Rattle.lrc_code.specs.Codes.{fragment_count};
ghost use Rattle.lrc_code.specs.Losses.{FragmentSet, IsRecoverable, IsMargin};
ghost use Rattle.lrc_terms.specs.declared.level.Level.TheVariants.{Whole, AtRisk, Unavailable, Lost};
ghost use Rattle.lrc_terms.specs.Levels.{Homes, homeless_in, missing_in, SomeMissing, NoneMissing, level_by, rank_by, rank_at};

/// The lease that is found for a fragment is one in the list. If the list has at most one lease per fragment, each of
/// its leases is found.
pub fn leases_are_found_in_their_list()
    ensures own { (leases : List Lease) (s : StripeNo) (f : ℕ) (l : Lease)
        → leases_in leases s f ≡ Some l → Contains leases l × (l.stripe ≡ s) × (l.fragment.value ≡ f) }
    ensures each { (leases : List Lease) (l : Lease) → AreOneEach leases → Contains leases l ↔ (leases_in leases l.stripe l.fragment.value ≡ Some l) }
{}

/// What adding a lease to the end of a list changes, and what removing leases changes. A list keeps at most one lease
/// per fragment.
pub fn lists_change_as_leases_do()
    ensures added { (leases : List Lease) (l : Lease) (spare : ℕ)
        → leases_in leases l.stripe l.fragment.value ≡ None → leased_of (leases ++ l ∷ []) (spare - 1) ≡ with_lease (leased_of leases spare) l }
    ensures taken_out { (leases : List Lease) (s : StripeNo) (f : Fragment) (spare : ℕ)
        → leased_of (filter (λ l. not (is_of s f.value l)) leases) spare ≡ without_lease (leased_of leases spare) s f }
    ensures stripe { (leases : List Lease) (s r : StripeNo) (f : ℕ)
        → leases_in (filter (λ l. not (same_stripe s l.stripe)) leases) r f ≡ (if same_stripe s r then None else leases_in leases r f) }
    ensures kept { (keep : Lease → Bool) (leases : List Lease) (s : StripeNo) (f : ℕ) (l : Lease)
        → AreOneEach leases → (leases_in (filter keep leases) s f ≡ Some l) ↔ ((leases_in leases s f ≡ Some l) × IsTrue (keep l)) }
    ensures one_more { (leases : List Lease) (l : Lease) → AreOneEach leases → leases_in leases l.stripe l.fragment.value ≡ None → AreOneEach (leases ++ l ∷ []) }
    ensures fewer { (keep : Lease → Bool) (leases : List Lease) → AreOneEach leases → AreOneEach (filter keep leases) }
{}

/// A stripe is Lost exactly if its homeless fragments are not recoverable. Otherwise it is Unavailable exactly if its
/// missing fragments are not recoverable; otherwise AtRisk, with its margin of at most 2, exactly if a fragment is
/// missing; otherwise Whole.
pub fn levels_of_sets_in_words()
    ensures lost { (code : Code) (homeless missing : FragmentSet) → (level_by code homeless missing ≡ Lost) ↔ (¬ IsRecoverable code homeless) }
    ensures unavailable { (code : Code) (homeless missing : FragmentSet) → (level_by code homeless missing ≡ Unavailable) ↔ (IsRecoverable code homeless × (¬ IsRecoverable code missing)) }
    ensures at_risk { (code : Code) (homeless missing : FragmentSet) (t : ℕ) → (level_by code homeless missing ≡ AtRisk t) ↔ (IsRecoverable code homeless × IsMargin code missing t × SomeMissing code missing) }
    ensures few { (code : Code) (homeless missing : FragmentSet) (t : ℕ) → level_by code homeless missing ≡ AtRisk t → t ≤ 2 }
    ensures whole { (code : Code) (homeless missing : FragmentSet) → (level_by code homeless missing ≡ Whole) ↔ (IsRecoverable code homeless × NoneMissing code missing) }
{}

/// The rank of a stripe's level is the rank of its missing fragments.
pub fn levels_of_sets_show_ranks()
    ensures sets { (code : Code) (homeless missing : FragmentSet) → ((f : ℕ) → f < fragment_count code → IsTrue (homeless f) → IsTrue (missing f)) → rank_at (level_by code homeless missing) ≡ rank_by code missing }
    ensures homes { (code : Code) (online : NodeNo → Bool) (homes : Homes) → rank_at (level_by code (homeless_in code homes) (missing_in code online homes)) ≡ rank_by code (missing_in code online homes) }
{}
