//! Laws of placement: which nodes a fragment may go to, which seat is chosen for it, what a new stripe gets, and what
//! Drop leaves.

ghost use Rattle.std.specs.Prelude.{◌≡◌, ◌≢◌, ◌↔◌, IsTrue, IsFalse, List, map, replicate, ◌++◌, All, Contains, Some, None};
ghost use Rattle.lrc_code.specs.declared.codes.Code.{Code};
ghost use Rattle.lrc_code.specs.Codes.{fragments};
ghost use Rattle.lrc_code.specs.declared.numbers.StripeNo.{StripeNo};
ghost use Rattle.lrc_code.specs.declared.numbers.Fragment.{Fragment};
ghost use Rattle.lrc_topology.specs.declared.NodeInfo.{NodeInfo};
ghost use Rattle.lrc_topology.specs.declared.seat.Seat.{Seat};
ghost use Rattle.lrc_topology.specs.declared.seat.Held.{Held};
ghost use Rattle.lrc_topology.specs.Nodes.{AreNodes};
ghost use Rattle.lrc_code.specs.declared.numbers.SessionNo.{SessionNo};
ghost use Rattle.lrc_rules.specs.declared.entry.Entry.{Entry};
ghost use Rattle.lrc_rules.specs.declared.command.Command.{Command};
ghost use Rattle.lrc_rules.specs.declared.command.Command.TheVariants.{Place, Place6, Drop};
ghost use Rattle.lrc_rules.specs.declared.reply.Reply.TheVariants.{Placed, Placed6, Dropped, Refused};
ghost use Rattle.lrc_rules.specs.declared.refusal.Refusal.TheVariants as refusal;
ghost use Rattle.lrc_terms.specs.declared.lease.Lease.{Lease as LeaseRecord};
ghost use Rattle.lrc_rules.specs.Steps.{with_stripe, place_command, placed_reply, step};
ghost use Rattle.lrc_rules.specs.States.{State, has_stripe, code_of, code_shown, homes_shown};
ghost use Rattle.lrc_rules.specs.Placement.{chosen};
ghost use Rattle.lrc_rules.specs.Choices.{IsFitting, IsChoice, AreChosen, IsFirstWithout};
ghost use Rattle.lrc_rules.specs.Goodness.{AreSeated};

/// The chosen seat is the lowest free slot of the node that the rule prefers to every other node that the fragment
/// may go to.
pub fn chosen_seats_come_first()
    ensures { (nodes : List NodeInfo) (st : State) (s : StripeNo) (f : Fragment) (seat : Seat)
        → AreNodes nodes → (chosen nodes st s f ≡ Some seat) ↔ IsChoice nodes st s f seat }
{}

/// No seat is chosen exactly if the fragment may go to no node.
pub fn none_is_chosen_where_no_node_fits()
    ensures { (nodes : List NodeInfo) (st : State) (s : StripeNo) (f : Fragment)
        → (chosen nodes st s f ≡ None) ↔ ((n : NodeInfo) → ¬ (IsFitting nodes st s f n)) }
{}

/// Place replies with seats exactly if the store lacks the stripe and these are the seats that are chosen for its
/// sixteen fragments, one after the other, each after the earlier ones are placed. Place6 does so for the ten
/// fragments of the code `Narrow`.
pub fn placed_seats_are_chosen_in_turn()
    ensures { (nodes : List NodeInfo) (past : List Entry) (st : State) (session : SessionNo) (code : Code) (s : StripeNo) (seats : List Seat)
        → ((step nodes past st session (place_command code s)).0 ≡ placed_reply code seats)
        ↔ (IsFalse (has_stripe st s) × AreChosen nodes (with_stripe st code s) s (fragments code) seats) }
{}

/// Place and Place6 are refused for a fragment exactly if the store lacks the stripe and this is the first fragment
/// for which no seat is chosen, after the earlier ones are placed.
pub fn the_first_fragment_without_a_seat_is_told()
    ensures { (nodes : List NodeInfo) (past : List Entry) (st : State) (session : SessionNo) (code : Code) (s : StripeNo) (f : Fragment)
        → ((step nodes past st session (place_command code s)).0 ≡ Refused (refusal.NoLawfulNode f))
        ↔ (IsFalse (has_stripe st s) × IsFirstWithout nodes (with_stripe st code s) s (fragments code) f) }
{}

/// In a state that meets `AreSeated`, the seats in the reply to Place are the homes of the stripe's sixteen
/// fragments, in order. Those in the reply to Place6 are the homes of its ten, and the other numbers have none. In
/// every state, whatever the reply, every other stripe has the homes that it had.
pub fn placed_seats_are_the_homes()
    ensures told { (nodes : List NodeInfo) (past : List Entry) (st : State) (session : SessionNo) (s : StripeNo) (seats : List Seat)
        → AreSeated nodes st → (step nodes past st session (Place s)).0 ≡ Placed seats
        → homes_shown (step nodes past st session (Place s)).1 s ≡ Some (map (λ seat. Some seat) seats) }
    ensures told6 { (nodes : List NodeInfo) (past : List Entry) (st : State) (session : SessionNo) (s : StripeNo) (seats : List Seat)
        → AreSeated nodes st → (step nodes past st session (Place6 s)).0 ≡ Placed6 seats
        → homes_shown (step nodes past st session (Place6 s)).1 s ≡ Some (map (λ seat. Some seat) seats ++ replicate 6 None) }
    ensures others { (nodes : List NodeInfo) (past : List Entry) (st : State) (session : SessionNo) (code : Code) (s r : StripeNo)
        → r ≢ s → homes_shown (step nodes past st session (place_command code s)).1 r ≡ homes_shown st r }
{}

/// Place and Place6 are refused with StripeExists exactly if the store has the stripe, of either code.
#[tactic(auto, unfolding(crate::specs::Steps::place_outcome))]
pub fn a_stripe_is_placed_once()
    ensures { (nodes : List NodeInfo) (past : List Entry) (st : State) (session : SessionNo) (code : Code) (s : StripeNo)
        → ((step nodes past st session (place_command code s)).0 ≡ Refused refusal.StripeExists) ↔ IsTrue (has_stripe st s) }
{}

/// Place gives a stripe the code `Wide`, and Place6 the code `Narrow`. Only these two and Drop of the stripe change
/// its code, and no command changes the code of a stripe that stays.
pub fn codes_stay()
    ensures placed { (nodes : List NodeInfo) (past : List Entry) (st : State) (session : SessionNo) (code : Code) (s : StripeNo) (seats : List Seat)
        → (step nodes past st session (place_command code s)).0 ≡ placed_reply code seats
        → code_shown (step nodes past st session (place_command code s)).1 s ≡ Some code }
    ensures others { (nodes : List NodeInfo) (past : List Entry) (st : State) (session : SessionNo) (c : Command) (s : StripeNo)
        → c ≢ Place s → c ≢ Place6 s → c ≢ Drop s → code_shown (step nodes past st session c).1 s ≡ code_shown st s }
    ensures stay { (nodes : List NodeInfo) (past : List Entry) (st : State) (session : SessionNo) (c : Command) (s : StripeNo)
        → IsTrue (has_stripe st s) → IsTrue (has_stripe (step nodes past st session c).1 s)
        → code_of (step nodes past st session c).1 s ≡ code_of st s }
{}

/// Drop removes a stripe exactly if the store has it, and otherwise is refused with UnknownStripe. Exactly the
/// stripes, narrow stripes, homes and leases of other stripes are left, and nothing else changes.
#[tactic(auto, unfolding(crate::specs::Steps::drop_outcome))]
pub fn dropped_stripes_leave_nothing()
    ensures done { (nodes : List NodeInfo) (past : List Entry) (st : State) (session : SessionNo) (s : StripeNo)
        → ((step nodes past st session (Drop s)).0 ≡ Dropped) ↔ IsTrue (has_stripe st s) }
    ensures unknown { (nodes : List NodeInfo) (past : List Entry) (st : State) (session : SessionNo) (s : StripeNo)
        → ((step nodes past st session (Drop s)).0 ≡ Refused refusal.UnknownStripe) ↔ IsFalse (has_stripe st s) }
    ensures stripes { (nodes : List NodeInfo) (past : List Entry) (st : State) (session : SessionNo) (s r : StripeNo)
        → (step nodes past st session (Drop s)).0 ≡ Dropped
        → Contains (step nodes past st session (Drop s)).1.stripes r ↔ (Contains st.stripes r × (r ≢ s)) }
    ensures codes { (nodes : List NodeInfo) (past : List Entry) (st : State) (session : SessionNo) (s r : StripeNo)
        → (step nodes past st session (Drop s)).0 ≡ Dropped
        → Contains (step nodes past st session (Drop s)).1.narrow r ↔ (Contains st.narrow r × (r ≢ s)) }
    ensures homes { (nodes : List NodeInfo) (past : List Entry) (st : State) (session : SessionNo) (s : StripeNo) (h : Held)
        → (step nodes past st session (Drop s)).0 ≡ Dropped
        → Contains (step nodes past st session (Drop s)).1.homes h ↔ (Contains st.homes h × (h.stripe ≢ s)) }
    ensures leases { (nodes : List NodeInfo) (past : List Entry) (st : State) (session : SessionNo) (s : StripeNo) (l : LeaseRecord)
        → (step nodes past st session (Drop s)).0 ≡ Dropped
        → Contains (step nodes past st session (Drop s)).1.leases l ↔ (Contains st.leases l × (l.stripe ≢ s)) }
    ensures rest { (nodes : List NodeInfo) (past : List Entry) (st : State) (session : SessionNo) (s : StripeNo)
        → (step nodes past st session (Drop s)).0 ≡ Dropped
        → (step nodes past st session (Drop s)).1 ≡ record st {
          stripes = (step nodes past st session (Drop s)).1.stripes;
          narrow = (step nodes past st session (Drop s)).1.narrow;
          homes = (step nodes past st session (Drop s)).1.homes;
          leases = (step nodes past st session (Drop s)).1.leases;
        } }
{}
