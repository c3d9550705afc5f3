//! Laws of the published view: it shows the level of each stripe and the load of each node.

ghost use Rattle.std.specs.Prelude.{◌≡◌, IsFalse, if◌then◌else◌, List};
ghost use Rattle.lrc_code.specs.declared.numbers.StripeNo.{StripeNo};
ghost use Rattle.lrc_code.specs.declared.numbers.NodeNo.{NodeNo};
ghost use Rattle.lrc_code.specs.declared.numbers.SessionNo.{SessionNo};
ghost use Rattle.lrc_code.specs.Numbers.{same_stripe};
ghost use Rattle.lrc_topology.specs.declared.NodeInfo.{NodeInfo};
ghost use Rattle.lrc_rules.specs.declared.command.Command.{Command};
ghost use Rattle.lrc_rules.specs.declared.entry.Entry.{Entry};
ghost use Rattle.lrc_rules.specs.States.{State, load, load_shown, level_shown};
ghost use Rattle.lrc_rules.specs.Steps.{step};
ghost use Rattle.lrc_rules.specs.Touching.{can_change_level, can_change_load};
ghost use Rattle.lrc_rules.specs.Boards.{LevelChange, levels_of, level_in, put_level, loads_of, load_in};

/// The published view shows the same levels and loads as the state.
pub fn boards_show_what_books_show()
    ensures levels { (nodes : List NodeInfo) (st : State) (s : StripeNo) → level_in (levels_of nodes st) s ≡ level_shown nodes st s }
    ensures loads { (nodes : List NodeInfo) (st : State) (n : NodeNo) → load_in (loads_of nodes st) n ≡ load_shown nodes st n }
{}

/// Writing a change to the published view changes the level of one stripe, and no other.
pub fn a_change_is_of_one_stripe()
    ensures { (nodes : List NodeInfo) (st : State) (change : LevelChange) (s : StripeNo)
        → level_in (put_level (levels_of nodes st) change) s ≡ (if same_stripe change.0 s then change.1 else level_shown nodes st s) }
{}

/// A command changes the level of a stripe only if it places, drops or repairs the stripe, or is on a node or domain
/// where the stripe has a home. Of the commands on leases only an accepted Done changes a level.
pub fn levels_change_by_these_alone()
    ensures { (nodes : List NodeInfo) (past : List Entry) (st : State) (session : SessionNo) (command : Command) (s : StripeNo)
        → IsFalse (can_change_level nodes st s command) → level_shown nodes (step nodes past st session command).1 s ≡ level_shown nodes st s }
{}

/// A command changes the load of a node only if it gives or takes a seat on the node, or makes a target on the node a
/// home.
pub fn loads_change_by_these_alone()
    ensures { (nodes : List NodeInfo) (past : List Entry) (st : State) (session : SessionNo) (command : Command) (n : NodeNo)
        → IsFalse (can_change_load st n command (step nodes past st session command).0) → load (step nodes past st session command).1 n ≡ load st n }
{}
