//! Laws of the definitions. Each law is the contract of a function that does nothing.

ghost use Rattle.std.specs.Prelude.{◌≡◌, ℕ, ◌<◌, List, [], ◌∷◌, length, slice_index_or, Contains, Vec};
ghost use Rattle.std.specs.Global.{Global};
ghost use Rattle.lrc_rules.specs.declared.command.Command.{Command};
ghost use mathlib.Core.List.{IsPrefix};
ghost use Rattle.lrc_topology.specs.declared.NodeInfo.{NodeInfo};
ghost use Rattle.lrc_board.specs.declared.batch.Batch.{Batch};
ghost use Rattle.lrc_board.specs.declared.receipt.Receipt.{Receipt};
ghost use Rattle.lrc_sessions.specs.declared.closing.Closing.{Closing as ClosingRecord};
ghost use Rattle.lrc_sessions.specs.declared.track.Track.{Track};
ghost use Rattle.lrc_sessions.specs.Calls.{IsCalled, AreCalled};
ghost use Rattle.lrc_sessions.specs.Closing.{Closes};
ghost use Rattle.lrc_sessions.specs.Views.{SessionView, fresh};
ghost use Rattle.lrc_sessions.specs.Counts.{AreAll};
ghost use Rattle.lrc_sessions.specs.Receipts.{receipts_in};
ghost use Rattle.lrc_sessions.specs.Runs.{Passes, StandsAt, AreRun};

use crate::gate::Gate;

/// The sessions that `open` returns are all sessions of the manager. All sessions of a manager still are after each ran
/// a script.
pub fn opened_sessions_are_all<G: Gate>()
    ensures opened { (count : ℕ) → AreAll count (fresh count) }
    ensures ran { (count limit : ℕ) (scripts : List (Vec Command Global)) (before after : List SessionView) (tracks : List Track)
        → AreAll count before → length before ≡ length scripts
        → AreRun limit G.most G.may_stop (Passes G.lets G.tells) scripts before after tracks → AreAll count after }
{}

/// The history that `finish` returns has the call of each receipt: at the receipt's place, with the session's number,
/// the command and the reply. The same holds for the receipts of a batch, which this history has, and of a run, with
/// the commands of its scripts.
pub fn receipts_stand_in_the_history<G: Gate>()
    ensures call { (nodes : List NodeInfo) (count limit : ℕ) (sessions : List SessionView) (closing : ClosingRecord) (before after last : SessionView) (command : Command) (r : Receipt)
        → IsCalled nodes before command r after → IsPrefix after.seen last.seen → Contains sessions last → Closes nodes limit count sessions closing
        → StandsAt before.number command r closing.book.history }
    ensures batch { (nodes : List NodeInfo) (count limit : ℕ) (sessions : List SessionView) (closing : ClosingRecord)
        (before after last : SessionView) (commands : List Command) (b : Batch) (j : ℕ) (r : Receipt) (command : Command)
        → AreCalled nodes before commands b.first after → b.count ≡ length commands → j < b.count
        → IsPrefix after.seen last.seen → Contains sessions last → Closes nodes limit count sessions closing
        → StandsAt before.number (slice_index_or commands j command)
        (slice_index_or (receipts_in closing.book.history (b ∷ [])) j r) closing.book.history }
    ensures run { (nodes : List NodeInfo) (count limit : ℕ) (scripts : List (Vec Command Global)) (before after sessions : List SessionView) (tracks : List Track) (closing : ClosingRecord)
        (i j : ℕ) (s : Vec Command Global) (b a last : SessionView) (t : Track) (r : Receipt) (command : Command)
        → AreRun limit G.most G.may_stop (Passes G.lets G.tells) scripts before after tracks → i < length scripts
        → j < length (receipts_in closing.book.history (slice_index_or tracks i t).batches)
        → IsPrefix (slice_index_or after i a).seen last.seen → Contains sessions last → Closes nodes limit count sessions closing
        → StandsAt (slice_index_or before i b).number (slice_index_or (slice_index_or scripts i s).items j command)
        (slice_index_or (receipts_in closing.book.history (slice_index_or tracks i t).batches) j r)
        closing.book.history }
{}
