ghost use Rattle.std.specs.Prelude.{ℕ};

use lrc_board::ViewNaming;
use std::marker::Brand;
use std::sync::ledger::Ledger;

/// A brand of a manager: sessions and managers with different brands cannot be mixed. It names the published view of the book, the
/// number of sessions, and the ledger that counts their calls.
///
/// The view's `limit` is the most entries that the history can have, up to 1,000,000. A history at its limit takes no command: a call
/// then returns `Fault::HistoryFull`.
pub trait Naming: Ledger + ViewNaming {
    // the number of sessions
    ghost count: { ℕ };
}

impl Naming for Brand {
    ghost count = { 0 };
}
