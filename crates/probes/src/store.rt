//! The book that calls are made on, and the end of a manager.

ghost use Rattle.std.specs.Prelude.{◌≡◌, [], IfOk};
ghost use Rattle.lrc_rules.specs.Histories.{first_world};
ghost use Rattle.lrc_sessions.specs.Counts.{AreAll};

use crate::stop::Stop;
use lrc_book::Book;
use lrc_samples::twenty_nodes;
use lrc_sessions::{Closing, FinishError, Manager, Naming, Session};
use std::alloc::Global;
use std::sync::Wait;

/// Makes a book over twenty nodes.
pub(crate) fn new_book(alloc: Global) -> Result<Book, Stop>
    ensures { IfOk result (λ b. (b.history ≡ []) × (b.base ≡ first_world) × (b.before ≡ 0)) }
{
    let nodes = twenty_nodes(alloc)?;
    match Book::new(alloc, nodes) {
        Ok(book) => Ok(book),
        Err(_fault) => Err(Stop::Failed),
    }
}

/// Ends a manager, given all its sessions.
pub(crate) fn finish<N: Naming, R: Wait>(
    rt: &R,
    manager: Manager<N>,
    sessions: Vec<Session<N>>,
) -> Closing
    requires { AreAll manager.count sessions.items }
{
    match manager.finish(rt, sessions) {
        Ok(closing) => closing,
        Err(FinishError::SessionsOut(_manager, _sessions)) => unreachable!(),
    }
}
