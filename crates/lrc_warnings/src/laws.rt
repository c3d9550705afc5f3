//! Laws of the warnings. Each is the contract of a function that does nothing.

ghost use Rattle.std.specs.Prelude.{◌≡◌, ◌≢◌, IsTrue, IsFalse, List};
ghost use Rattle.lrc_code.specs.declared.codes.Code.{Code};
ghost use Rattle.lrc_code.specs.declared.numbers.StripeNo.{StripeNo};
ghost use Rattle.lrc_code.specs.declared.numbers.SessionNo.{SessionNo};
ghost use Rattle.lrc_code.specs.declared.numbers.Fragment.{Fragment};
ghost use Rattle.lrc_topology.specs.declared.NodeInfo.{NodeInfo};
ghost use Rattle.lrc_topology.specs.declared.seat.Seat.{Seat};
ghost use Rattle.lrc_topology.specs.Nodes.{AreNodes};
ghost use Rattle.lrc_rules.specs.declared.entry.Entry.{Entry};
ghost use Rattle.lrc_rules.specs.declared.reply.Reply.TheVariants.{Refused};
ghost use Rattle.lrc_rules.specs.declared.refusal.Refusal.TheVariants as refusal;
ghost use Rattle.lrc_rules.specs.States.{State, has_stripe};
ghost use Rattle.lrc_rules.specs.Steps.{place_command, placed_reply, step};
ghost use Rattle.lrc_warnings.specs.Warnings.{domains_of, are_too_few};

/// If the nodes of a store are warned of for a code, no stripe of the code is ever placed on them, whatever the state. Place
/// and Place6 of a stripe that the store lacks are refused for a fragment without a lawful node.
pub fn warned_codes_are_never_placed()
    ensures never { (nodes : List NodeInfo) (past : List Entry) (st : State) (session : SessionNo) (code : Code) (s : StripeNo) (seats : List Seat)
        → AreNodes nodes → IsTrue (are_too_few code (domains_of nodes))
        → (step nodes past st session (place_command code s)).0 ≢ placed_reply code seats }
    ensures refused { (nodes : List NodeInfo) (past : List Entry) (st : State) (session : SessionNo) (code : Code) (s : StripeNo)
        → AreNodes nodes → IsTrue (are_too_few code (domains_of nodes)) → IsFalse (has_stripe st s)
        → (f : Fragment) × ((step nodes past st session (place_command code s)).0 ≡ Refused (refusal.NoLawfulNode f)) }
{}
