ghost use Rattle.std.specs.Prelude.{ℕ, List, []};
ghost use Rattle.logbook.specs.Pages.{Book};
ghost use Rattle.lrc_topology.specs.declared.NodeInfo.{NodeInfo};

use std::marker::Brand;

/// A brand of a published view: keepers and viewers with different brands cannot be mixed. It names the log, and the nodes and the
/// limit of the book.
pub trait ViewNaming {
    // the log
    ghost log: { Book };

    // the permit that writes the log's first line
    ghost start: { ℕ };

    // the nodes of the store
    ghost topology: { List NodeInfo };

    // the most entries that the history can have, up to 1,000,000
    ghost limit: { ℕ };
}

impl ViewNaming for Brand {
    ghost log = { record { number = 0; log_name = 0; cells_name = 0 } };

    ghost start = { 0 };

    ghost topology = { [] };

    ghost limit = { 0 };
}
