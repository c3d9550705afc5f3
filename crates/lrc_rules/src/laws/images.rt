//! Laws for images of a state. States that are alike show the same and go on in the same way, so a
//! history can be cut at an image of the state that it left. Each such state is tidy.

ghost use Rattle.std.specs.Prelude.{◌≡◌, ◌↔◌, List, ◌++◌};
ghost use Rattle.lrc_code.specs.declared.numbers.SessionNo.{SessionNo};
ghost use Rattle.lrc_topology.specs.declared.NodeInfo.{NodeInfo};
ghost use Rattle.lrc_topology.specs.Nodes.{AreNodes};
ghost use Rattle.lrc_rules.specs.declared.command.Command.{Command};
ghost use Rattle.lrc_rules.specs.declared.entry.Entry.{Entry};
ghost use Rattle.lrc_rules.specs.States.{State};
ghost use Rattle.lrc_rules.specs.Histories.{World, outcome_in, world_from, state_from};
ghost use Rattle.lrc_rules.specs.Histories.{state_after, IsLegalFrom};
ghost use Rattle.lrc_rules.specs.Goodness.{AreSeated, IsGood};
ghost use Rattle.lrc_rules.specs.Tidiness.{IsTidy};
ghost use Rattle.lrc_rules.specs.Alike.{AreAlike, AreDistinct};
ghost use Rattle.lrc_rules.specs.Futures.{HaveSameGrants, ShowTheSame};

/// Two states that are alike, and that meet `AreSeated`, show the same to every read.
pub fn alike_states_show_the_same()
    ensures { (nodes : List NodeInfo) (st other : State)
        → AreSeated nodes st → AreSeated nodes other → AreAlike st other
        → ShowTheSame nodes st other }
{}

/// A state that is alike one that meets `AreSeated`, and that lists nothing twice, meets it too. If
/// as many leases were granted, it is as good, and if the other is tidy, so is it.
pub fn alike_states_are_as_good()
    ensures seated { (nodes : List NodeInfo) (st other : State)
        → AreAlike st other → AreDistinct other → AreSeated nodes st → AreSeated nodes other }
    ensures good { (nodes : List NodeInfo) (w v : World)
        → AreAlike w.state v.state → HaveSameGrants w.past v.past → AreDistinct v.state
        → IsGood nodes w.past w.state → IsGood nodes v.past v.state }
    ensures tidy { (nodes : List NodeInfo) (st other : State)
        → AreAlike st other → IsTidy nodes st → IsTidy nodes other }
{}

/// Two worlds have one future if their states are alike and meet `AreSeated`, and if their entries
/// grant as many leases of each fragment. Each command gets the same reply in both. The same
/// histories are legal from both. After each history, the states are alike again, and as many
/// leases were granted.
pub fn alike_worlds_have_one_future()
    ensures reply { (nodes : List NodeInfo) (w v : World) (session : SessionNo) (command : Command)
        → AreNodes nodes → AreSeated nodes w.state → AreSeated nodes v.state
        → AreAlike w.state v.state → HaveSameGrants w.past v.past
        → (outcome_in nodes w session command).0 ≡ (outcome_in nodes v session command).0 }
    ensures legal { (nodes : List NodeInfo) (w v : World) (history : List Entry)
        → AreNodes nodes → AreSeated nodes w.state → AreSeated nodes v.state
        → AreAlike w.state v.state → HaveSameGrants w.past v.past
        → IsLegalFrom nodes w history ↔ IsLegalFrom nodes v history }
    ensures after { (nodes : List NodeInfo) (w v : World) (history : List Entry)
        → AreNodes nodes → AreSeated nodes w.state → AreSeated nodes v.state
        → AreAlike w.state v.state → HaveSameGrants w.past v.past
        → AreAlike (state_from nodes w history) (state_from nodes v history)
        × HaveSameGrants (world_from nodes w history).past (world_from nodes v history).past }
{}

/// A history loses nothing where it is cut. From a base, the entries before the cut lead to a
/// world; later entries follow from an image of it, that is, from any world whose state is alike
/// and meets `AreSeated`, with as many leases of each fragment granted. Both parts together are
/// legal from the base exactly if the first is legal from the base and the second from the image.
/// They leave a world that is alike the one that the second part leaves.
pub fn images_lose_nothing()
    ensures legal { (nodes : List NodeInfo) (base image : World) (before later : List Entry)
        → AreNodes nodes → AreSeated nodes base.state → AreSeated nodes image.state
        → AreAlike (state_from nodes base before) image.state
        → HaveSameGrants (world_from nodes base before).past image.past
        → IsLegalFrom nodes base (before ++ later)
        ↔ (IsLegalFrom nodes base before × IsLegalFrom nodes image later) }
    ensures after { (nodes : List NodeInfo) (base image : World) (before later : List Entry)
        → AreNodes nodes → AreSeated nodes base.state → AreSeated nodes image.state
        → AreAlike (state_from nodes base before) image.state
        → HaveSameGrants (world_from nodes base before).past image.past
        → AreAlike (state_from nodes base (before ++ later)) (state_from nodes image later)
        × HaveSameGrants (world_from nodes base (before ++ later)).past
        (world_from nodes image later).past }
{}

/// A history leaves a tidy state if it starts from one, and so does each history from the empty
/// store on. Its replies need not be those that the rules give.
pub fn legal_histories_leave_tidy_states()
    ensures from { (nodes : List NodeInfo) (w : World) (history : List Entry)
        → IsTidy nodes w.state → IsTidy nodes (state_from nodes w history) }
    ensures first { (nodes : List NodeInfo) (history : List Entry)
        → IsTidy nodes (state_after nodes history) }
{}
