//! Laws of the slot table: which seat of it is the chosen one.

ghost use Rattle.std.specs.Prelude.{◌≡◌, IsTrue, List, All};
ghost use Rattle.lrc_code.specs.declared.numbers.StripeNo.{StripeNo};
ghost use Rattle.lrc_code.specs.declared.numbers.Fragment.{Fragment};
ghost use Rattle.lrc_topology.specs.declared.NodeInfo.{NodeInfo};
ghost use Rattle.lrc_topology.specs.declared.seat.Held.{Held};
ghost use Rattle.lrc_topology.specs.Nodes.{AreNodes};
ghost use Rattle.lrc_rules.specs.States.{State};
ghost use Rattle.lrc_rules.specs.Placement.{chosen, is_beside};
ghost use Rattle.lrc_rules.specs.Goodness.{AreSeated};
ghost use Rattle.lrc_bars.specs.Ties.{kept_table, bars_of, closed, next_seat, with_homes};

/// Over the slot table that is kept of a state whose stripes are seated, with the domains of the stripe's other
/// fragments barred, and the upgrading domain if there is one, the least free slot of the next node is the seat that
/// the rule chooses.
pub fn tables_give_the_chosen_seat()
    ensures { (nodes : List NodeInfo) (st : State) (s : StripeNo) (f : Fragment)
        → AreNodes nodes → AreSeated nodes st → next_seat (kept_table nodes st) (closed st.upgrading (bars_of nodes st s f)) ≡ chosen nodes st s f }
{}

/// Homes planned for other fragments of the stripe need not be in the table that is kept: with their domains barred,
/// and the upgrading domain if there is one, it gives the seat that the rule chooses beside them.
pub fn planned_homes_only_bar_domains()
    ensures { (nodes : List NodeInfo) (st : State) (planned : List Held) (s : StripeNo) (f : Fragment)
        → AreNodes nodes → AreSeated nodes st → All (λ h. IsTrue (is_beside s f h)) planned
        → next_seat (kept_table nodes st) (closed st.upgrading (bars_of nodes (with_homes st planned) s f)) ≡ chosen nodes (with_homes st planned) s f }
{}
