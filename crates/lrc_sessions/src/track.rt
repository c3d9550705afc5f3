ghost use Rattle.std.specs.Prelude.{◌≡◌};

use lrc_board::Batch;
use lrc_code::Fault;
use std::marker::Model;

/// Why a script stopped before its end.
#[derive(Clone, Copy, Debug, PartialEq, Eq)]
pub enum Stop {
    /// Its next call returned this fault.
    Fault(Fault),
    /// The gate stopped it before its next call.
    Gate,
}

/// The batches of a script's calls, in order.
#[derive(Drop)]
pub struct Batches {
    pub(crate) items: Vec<Batch>,
}

impl Model for Batches {
    ghost use Rattle.std.specs.Prelude.{List};
    ghost use Rattle.lrc_board.specs.declared.batch.Batch.{Batch};

    ghost Value = { List Batch };

    ghost view = { λ b. b.items.items };
}

impl Batches {
    /// Returns the batches, in the order of the calls. The history has the replies of their calls.
    pub fn as_slice(&self) -> &[Batch]
        ensures { result.now ≡ self.now }
    {
        self.items.as_slice()
    }
}

/// The result of a script: the batches of the calls that were made, and why it stopped. If nothing stopped it, it made
/// all calls.
#[derive(Drop)]
pub struct Track {
    pub batches: Batches,
    pub stopped: Option<Stop>,
}
