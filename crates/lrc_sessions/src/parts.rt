ghost use Rattle.std.specs.Prelude.{◌≡◌, ◌≤◌, IfOk, IfErr};
ghost use Rattle.lrc_sessions.specs.Views.{PartsView};
ghost use Rattle.lrc_sessions.specs.Errors.{OpenFits};

use lrc_board::{NewLog, OpenError};
use lrc_book::{Book, HISTORY_LIMIT};
use lrc_topology::Topology;
use std::alloc::Global;
use std::marker::Model;
use std::sync::ledger::Blank;

/// The parts of a manager before it has a naming: a new book, a log without lines, a new ledger of eight shares, and the number of
/// sessions.
#[derive(Drop)]
pub struct Parts {
    pub(crate) book: Book,
    pub(crate) log: NewLog,
    pub(crate) tally: Blank,
    pub(crate) count: u8,
}

impl Model for Parts {
    ghost use Rattle.std.specs.Prelude.{◌≡◌, ◌≤◌, []};
    ghost use Rattle.lrc_rules.specs.Histories.{first_world};
    ghost use Rattle.lrc_sessions.specs.Views.{PartsView};

    ghost Value = { PartsView };

    ghost view = { λ p. record {
      topology = p.book.nodes;
      limit = p.book.limit;
      count = p.count;
      name = p.tally.name;
      shares = p.tally.parts;
      log = p.log.prefix.book;
      start = p.log.permit.nib.key;
    } };

    ghost invariant = { λ p. (p.book.history ≡ []) × (p.book.limit ≤ 1000000) × (p.tally.parts ≡ 8)
        × (1 ≤ p.count) × (p.count ≤ 8) × (p.book.base ≡ first_world) × (p.book.before ≡ 0) };
}

impl Parts {
    /// Makes the parts of a manager of `count` sessions over these nodes, with a history of at most 1,000,000 entries.
    ///
    /// # Errors
    ///
    /// `OpenError::BadCount` if the count is not 1 to 8, which is checked first; otherwise only `OpenError::OutOfMemory`.
    pub fn new(alloc: Global, topology: Topology, count: u8) -> Result<Parts, OpenError>
        ensures ok { IfOk result (λ p. (p.topology ≡ topology) × (p.limit ≡ 1000000) × (p.count ≡ count) × (1 ≤ count) × (count ≤ 8)) }
        ensures err { IfErr result (OpenFits count) }
    {
        Parts::with_limit(alloc, topology, count, HISTORY_LIMIT)
    }

    /// Makes the parts of a manager of `count` sessions over these nodes, with a history of at most `limit` entries. The limit is
    /// at most 1,000,000.
    ///
    /// # Errors
    ///
    /// `OpenError::BadCount` if the count is not 1 to 8, which is checked first; otherwise only `OpenError::OutOfMemory`.
    pub fn with_limit(
        alloc: Global,
        topology: Topology,
        count: u8,
        limit: u32,
    ) -> Result<Parts, OpenError>
        requires limit { limit ≤ 1000000 }
        ensures ok { IfOk result (λ p. (p.topology ≡ topology) × (p.limit ≡ limit) × (p.count ≡ count) × (1 ≤ count) × (count ≤ 8)) }
        ensures err { IfErr result (OpenFits count) }
    {
        if count < 1 || count > 8 {
            return Err(OpenError::BadCount);
        }
        let Ok(book) = Book::with_limit(alloc, topology, limit) else {
            return Err(OpenError::OutOfMemory);
        };
        Ok(Parts {
            book,
            log: NewLog::new(),
            tally: Blank::new(8),
            count,
        })
    }
}
